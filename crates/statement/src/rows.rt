ghost use Rattle.std.specs.Prelude.{◌≡◌, ◌++◌, string_bytes, OnOk};
ghost use Rattle.std.specs.List.{flat_map};
ghost use Rattle.row_text.specs.Cells.{Pushed};
ghost use Rattle.statement.specs.Rows.{heading_cells, heading_row, line_cells, net_cells, line_row, line_rows, net_row};

use crate::pairs::Pair;
use crate::words::{kind_word, order_words};
use layout::Row;
use row_text::{Cell, Word, push_row};
use std::alloc::AllocError;
use tape::{Line, Movement, ReadingTape, lines_of, movement_of};

// A list of cells for each sort of row.
fn heading_cells(date: u32, count: usize) -> [Cell; 4]
    ensures { result ≡ heading_cells date count }
{
    [
        Cell::Word(Word::Date),
        Cell::Figure(date as u64),
        Cell::Word(Word::Lines),
        Cell::Figure(count as u64),
    ]
}

fn line_cells(k: usize, line: &Line) -> [Cell; 24]
    ensures { result ≡ line_cells k line.now }
{
    let words = order_words(line);
    let row = Row::of(*line);
    [
        Cell::Figure(k as u64),
        Cell::Word(kind_word(line)),
        Cell::Word(words.side),
        Cell::Word(words.kind),
        Cell::Word(Word::Reason),
        Cell::Word(words.reason),
        Cell::Word(Word::Unit),
        Cell::Figure(row.unit as u64),
        Cell::Word(Word::Serial),
        Cell::Figure(row.serial as u64),
        Cell::Word(Word::Item),
        Cell::Figure(row.item as u64),
        Cell::Word(Word::Account),
        Cell::Figure(row.account),
        Cell::Word(Word::Quantity),
        Cell::Figure(row.quantity),
        Cell::Word(Word::Price),
        Cell::Figure(row.price as u64),
        Cell::Word(Word::Agreement),
        Cell::Figure(row.agreement as u64),
        Cell::Word(Word::Deal),
        Cell::Figure(row.deal as u64),
        Cell::Word(Word::Time),
        Cell::Figure(row.time as u64),
    ]
}

fn net_cells(p: Pair, m: Movement) -> [Cell; 10]
    ensures { result ≡ net_cells p m }
{
    [
        Cell::Word(Word::Account),
        Cell::Figure(p.account),
        Cell::Word(Word::Item),
        Cell::Figure(p.item as u64),
        Cell::Word(Word::Coming),
        Cell::Figure(m.coming),
        Cell::Word(Word::Going),
        Cell::Figure(m.going),
        Cell::Word(Word::Net),
        Cell::Signed(m.net),
    ]
}

pub(crate) fn push_heading<T: ReadingTape>(out: &mut String, tape: &T) -> Result<(), AllocError>
    ensures { Pushed result out.old out.new (heading_row (T.Tape.contents tape.now)) }
{
    push_row(out, Word::Tape, &heading_cells(tape.date(), tape.count()))
}

fn push_line(out: &mut String, k: usize, line: &Line) -> Result<(), AllocError>
    ensures { Pushed result out.old out.new (line_row k line.now) }
{
    push_row(out, Word::Line, &line_cells(k, line))
}

pub(crate) fn push_lines<T: ReadingTape>(out: &mut String, tape: &T) -> Result<(), AllocError>
    ensures { Pushed result out.old out.new (line_rows 0 (T.Tape.contents tape.now).lines) }
{
    for (k, line) in lines_of(tape).enumerate() {
        push_line(out, k, &line)?;
    }
    Ok(())
}

fn push_net<T: ReadingTape>(out: &mut String, tape: &T, p: Pair) -> Result<(), AllocError>
    ensures { Pushed result out.old out.new (net_row (T.Tape.contents tape.now).lines p) }
{
    let m = movement_of(tape, p.account, p.item);
    push_row(out, Word::Net, &net_cells(p, m))
}

pub(crate) fn push_nets<T: ReadingTape>(
    out: &mut String,
    tape: &T,
    pairs: &[Pair],
) -> Result<(), AllocError>
    ensures { Pushed result out.old out.new (flat_map (net_row (T.Tape.contents tape.now).lines) pairs.now) }
{
    for p in pairs {
        push_net(out, tape, *p)?;
    }
    Ok(())
}
