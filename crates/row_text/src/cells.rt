ghost use Rattle.std.specs.Prelude.{◌≡◌, ◌++◌, Some, string_bytes, OnOk};
ghost use Rattle.row_text.specs.Cells.{cell_text, row_text, Pushed};

use crate::words::Word;
use std::alloc::AllocError;
use std::fmt;
use std::fmt::Write;

// What stands between two blanks of a row.
#[derive(Clone, Copy)]
pub enum Cell {
    Word(Word),
    Figure(u64),
    Signed(i64),
}

impl fmt::Display for Cell {
    ghost output = { λ c. Some (cell_text c) };

    fn fmt<W: fmt::Write>(&self, f: &mut fmt::Formatter<W>) -> fmt::Result {
        match self {
            Cell::Word(word) => write!(f, "{word}"),
            Cell::Figure(n) => write!(f, "{n}"),
            Cell::Signed(z) => write!(f, "{z}"),
        }
    }
}

// A row: its first word, its cells, and the end of the line.
pub fn push_row(out: &mut String, first: Word, cells: &[Cell]) -> Result<(), AllocError>
    ensures { Pushed result out.old out.new (row_text first cells.now) }
{
    write!(out, "{first}")?;
    for cell in cells {
        write!(out, " {cell}")?;
    }
    out.push_str("\n")
}
