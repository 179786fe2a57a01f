ghost use Rattle.std.specs.Prelude.{◌≡◌, IfOk};
ghost use Rattle.rules.specs.Calls.{payment_line};
ghost use Rattle.floor_day.specs.Parts.{told, paying_checks};

use crate::space::lines_left;
use crate::tables::Day;
use lookups::live_count;
use market::Refusal;
use requests::{payment_is_allowed, payment_line_for};
use rules::{Payment, Refused};
use tape::{PaymentLine, Tape};

// The line of a payment, if all is well but for the ledger.
pub fn check_payment<T: Tape>(day: &Day, tape: &T, p: &Payment) -> Result<PaymentLine, Refused>
    ensures answer { told result ≡ paying_checks day.now.is_open day.now.table.orders.items (T.Tape.contents tape.now) p.now }
    ensures line { IfOk result (λ l. l ≡ payment_line p.now) }
{
    day.check_open()?;
    let line = payment_line_for(p).ok_or(Refusal::OutOfRange)?;
    if !payment_is_allowed(p) {
        return Err(Refused::Floor(Refusal::BadPayment));
    }
    let live = live_count(&day.table.orders);
    if lines_left(tape) < live + 1 {
        return Err(Refused::Floor(Refusal::TooFewLines));
    }
    Ok(line)
}
