ghost use Rattle.std.specs.Prelude.{◌≡◌, IfOk, OnOk};
ghost use Rattle.marking.specs.Orders.{noted, noted_line, orders};

use rules::Name;
use std::alloc::{AllocError, Global};
use tape::{Line, OrderLine, ReadingTape, lines_of};

// Adds the name of an order that was not seen yet.
fn note(names: &mut Vec<Name>, o: &OrderLine) -> Result<(), AllocError>
    ensures { OnOk result (names.new.items ≡ noted names.old.items o.now) }
{
    let name = Name {
        unit: o.unit,
        serial: o.serial,
    };
    if !names.contains(&name) {
        names.push(name)?;
    }
    Ok(())
}

fn note_line(names: &mut Vec<Name>, line: &Line) -> Result<(), AllocError>
    ensures { OnOk result (names.new.items ≡ noted_line names.old.items line.now) }
{
    match line {
        Line::Entry(o) | Line::Deal(o, _) | Line::Cancel(o, _) => note(names, o),
        Line::PaidIn(_) | Line::DrawnOut(_) => Ok(()),
    }
}

// The orders that the tape names, in the sequence of their first lines.
pub fn orders_of<T: ReadingTape>(heap: Global, tape: &T) -> Result<Vec<Name>, AllocError>
    ensures { IfOk result (λ v. v.items ≡ orders (T.Tape.contents tape.now).lines) }
{
    let mut names = Vec::new(heap);
    for line in lines_of(tape) {
        note_line(&mut names, &line)?;
    }
    Ok(names)
}
