ghost use Rattle.std.specs.Prelude.{◌≡◌, true, if◌then◌else◌, Some, None};
ghost use Rattle.rules.specs.Checks.{cancel_in_range};
ghost use Rattle.requests.specs.Narrow.{CancelBounds, cancelling};

use market::{Figure, Sort};
use rules::CancelOrder;

// A cancel whose figures are in range.
#[derive(Clone, Copy)]
pub struct Cancelling {
    pub sort: Sort,
    pub unit: u32,
    pub serial: u32,
    pub target: u32,
    pub time: u32,
}

fn is_in_range(c: &CancelOrder) -> bool
    ensures value { result ≡ cancel_in_range c.now }
    ensures bounds { result ≡ true → CancelBounds c.now }
{
    Figure::Unit.admits(c.unit)
        && Figure::Serial.admits(c.serial)
        && Figure::Serial.admits(c.target)
        && Figure::Time.admits(c.time)
}

// An Option and no error, as for orders and payments: figures out of range are all that can be wrong.
pub fn cancel_for(c: &CancelOrder) -> Option<Cancelling>
    ensures { result ≡ (if cancel_in_range c.now then Some (cancelling c.now) else None) }
{
    if !is_in_range(c) {
        return None;
    }
    Some(Cancelling {
        sort: c.sort,
        unit: c.unit as u32,
        serial: c.serial as u32,
        target: c.target as u32,
        time: c.time as u32,
    })
}
