ghost use Rattle.std.specs.Prelude.{◌≡◌};
ghost use Rattle.laws.specs.Accounts.{of_line};
ghost use Rattle.marking.specs.Orders.{account};

use rules::Name;
use tape::{Line, OrderLine, ReadingTape, lines_of};

// What the lines of a tape tell of one order. A tape that no floor wrote may deal and cancel more than was entered.
#[derive(Clone, Copy)]
pub struct OrderAccount {
    pub quantity: u64,
    pub dealt: u64,
    pub cancelled: u64,
    pub live: i64,
}

fn quantity_for(o: &OrderLine, name: Name) -> u64
    ensures { result ≡ of_line o.now name.unit name.serial }
{
    if o.unit == name.unit && o.serial == name.serial {
        o.quantity.get() as u64
    } else {
        0
    }
}

// What was entered, dealt and cancelled of an order, and what is live of it.
pub fn account_of<T: ReadingTape>(tape: &T, name: Name) -> OrderAccount
    ensures { result ≡ account (T.Tape.contents tape.now).lines name }
{
    let mut quantity = 0;
    let mut dealt = 0;
    let mut cancelled = 0;
    for line in lines_of(tape) {
        match &line {
            Line::Entry(o) => quantity += quantity_for(o, name),
            Line::Deal(o, _) => dealt += quantity_for(o, name),
            Line::Cancel(o, _) => cancelled += quantity_for(o, name),
            Line::PaidIn(_) | Line::DrawnOut(_) => {}
        }
    }
    let live = quantity as i64 - dealt as i64 - cancelled as i64;
    OrderAccount {
        quantity,
        dealt,
        cancelled,
        live,
    }
}
