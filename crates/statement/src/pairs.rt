ghost use Rattle.std.specs.Prelude.{◌≡◌, IfOk, OnOk};
ghost use Rattle.statement.specs.Pairs.{noted, noted_order, noted_line, pairs};

use std::alloc::{AllocError, Global};
use tape::{Line, OrderLine, ReadingTape, lines_of};

// An account and an item that it may have.
#[derive(Clone, Copy, PartialEq, Eq)]
pub(crate) struct Pair {
    pub(crate) account: u64,
    pub(crate) item: u32,
}

// Adds a pair that was not seen yet.
fn note(pairs: &mut Vec<Pair>, p: Pair) -> Result<(), AllocError>
    ensures { OnOk result (pairs.new.items ≡ noted pairs.old.items p) }
{
    if !pairs.contains(&p) {
        pairs.push(p)?;
    }
    Ok(())
}

// An order's account may move in its security and in money.
fn note_order(pairs: &mut Vec<Pair>, o: &OrderLine) -> Result<(), AllocError>
    ensures { OnOk result (pairs.new.items ≡ noted_order pairs.old.items o.now) }
{
    note(
        pairs,
        Pair {
            account: o.account,
            item: o.security,
        },
    )?;
    note(
        pairs,
        Pair {
            account: o.account,
            item: 0,
        },
    )
}

fn note_line(pairs: &mut Vec<Pair>, line: &Line) -> Result<(), AllocError>
    ensures { OnOk result (pairs.new.items ≡ noted_line pairs.old.items line.now) }
{
    match line {
        Line::Entry(o) | Line::Deal(o, _) | Line::Cancel(o, _) => note_order(pairs, o),
        Line::PaidIn(p) | Line::DrawnOut(p) => note(
            pairs,
            Pair {
                account: p.account,
                item: p.item,
            },
        ),
    }
}

// The pairs that the tape names, in the order of their first appearance.
pub(crate) fn pairs_of<T: ReadingTape>(heap: Global, tape: &T) -> Result<Vec<Pair>, AllocError>
    ensures { IfOk result (λ v. v.items ≡ pairs (T.Tape.contents tape.now).lines) }
{
    let mut pairs = Vec::new(heap);
    for line in lines_of(tape) {
        note_line(&mut pairs, &line)?;
    }
    Ok(pairs)
}
