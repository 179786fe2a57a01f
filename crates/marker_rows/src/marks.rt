ghost use Rattle.std.specs.Prelude.{◌≡◌, ◌++◌, string_bytes, OnOk};
ghost use Rattle.std.specs.List.{flat_map};
ghost use Rattle.row_text.specs.Cells.{Pushed};
ghost use Rattle.marker_rows.specs.Marks.{order_cells, order_row, paired_word, deals_row, marks};

use marking::{OrderAccount, account_of, deals_paired, orders_of};
use row_text::{Cell, Word, push_row};
use rules::Name;
use std::alloc::{AllocError, Global};
use tape::ReadingTape;

fn order_cells(name: Name, a: OrderAccount) -> [Cell; 12]
    ensures { result ≡ order_cells name a }
{
    [
        Cell::Word(Word::Unit),
        Cell::Figure(name.unit as u64),
        Cell::Word(Word::Serial),
        Cell::Figure(name.serial as u64),
        Cell::Word(Word::Quantity),
        Cell::Figure(a.quantity),
        Cell::Word(Word::Dealt),
        Cell::Figure(a.dealt),
        Cell::Word(Word::Cancelled),
        Cell::Figure(a.cancelled),
        Cell::Word(Word::Live),
        Cell::Signed(a.live),
    ]
}

fn push_order<T: ReadingTape>(out: &mut String, tape: &T, name: Name) -> Result<(), AllocError>
    ensures { Pushed result out.old out.new (order_row (T.Tape.contents tape.now).lines name) }
{
    let account = account_of(tape, name);
    push_row(out, Word::Order, &order_cells(name, account))
}

// A row for each order, by what the tape tells of it.
fn push_orders<T: ReadingTape>(out: &mut String, tape: &T, names: &[Name]) -> Result<(), AllocError>
    ensures { Pushed result out.old out.new (flat_map (order_row (T.Tape.contents tape.now).lines) names.now) }
{
    for name in names {
        push_order(out, tape, *name)?;
    }
    Ok(())
}

fn paired_word(paired: bool) -> Word
    ensures { result ≡ paired_word paired }
{
    if paired { Word::Paired } else { Word::Unpaired }
}

// Whether every deal number has its two lines.
fn push_deals<T: ReadingTape>(out: &mut String, tape: &T) -> Result<(), AllocError>
    ensures { Pushed result out.old out.new (deals_row (T.Tape.contents tape.now).lines) }
{
    let word = paired_word(deals_paired(tape));
    push_row(out, Word::Deals, &[Cell::Word(word)])
}

// A row for each order that the tape names, then one on the deals.
pub fn push_marks<T: ReadingTape>(
    heap: Global,
    out: &mut String,
    tape: &T,
) -> Result<(), AllocError>
    ensures { Pushed result out.old out.new (marks (T.Tape.contents tape.now).lines) }
{
    let names = orders_of(heap, tape)?;
    push_orders(out, tape, names.as_slice())?;
    push_deals(out, tape)
}
