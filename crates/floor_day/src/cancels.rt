ghost use Rattle.std.specs.Prelude.{◌≡◌, IfOk};
ghost use Rattle.requests.specs.Narrow.{cancelling};
ghost use Rattle.rules.specs.Calls.{in_hours};
ghost use Rattle.floor_day.specs.Parts.{told, asked_answer, widened, Targets, Shown};

use crate::tables::Day;
use lookups::{find_listed, find_order, is_live, serial_is_used};
use market::Refusal;
use requests::{Cancelling, cancel_for};
use rules::{CancelOrder, Refused, Security};

fn is_in_hours(security: Option<Security>, time: u32) -> bool
    ensures { result ≡ in_hours security time }
{
    security.is_some_and(|s| s.class.trades_at(time))
}

// The cancel, if a day is open and its figures are in range.
pub fn check_asked(day: &Day, c: &CancelOrder) -> Result<Cancelling, Refused>
    ensures answer { told result ≡ asked_answer day.now.is_open c.now }
    ensures found { IfOk result (λ x. x ≡ cancelling c.now) }
{
    day.check_open()?;
    Ok(cancel_for(c).ok_or(Refusal::OutOfRange)?)
}

// The place of the order that a cancel names.
pub fn check_target(day: &Day, c: &Cancelling) -> Result<usize, Refused>
    ensures answer { Targets day.now c.now (told result) }
    ensures found { IfOk result (λ k. Shown day.now (widened c.now) k) }
{
    if serial_is_used(&day.table.orders, &day.table.cancels, c.unit, c.serial) {
        return Err(Refused::Floor(Refusal::SerialUsed));
    }
    let k = find_order(&day.table.orders, c.sort, c.unit, c.target).ok_or(Refusal::NoSuchOrder)?;
    let x = day.table.orders[k];
    if !is_live(&x) {
        return Err(Refused::Floor(Refusal::NotLive));
    }
    if !is_in_hours(find_listed(&day.securities, x.order.security), c.time) {
        return Err(Refused::Floor(Refusal::OutsideHours));
    }
    Ok(k)
}
