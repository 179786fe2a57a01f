ghost use Rattle.std.specs.Prelude.{◌≡◌, Ok, ◌<◌, vec_len, vec_capacity, slice_index_or, slice_set};
ghost use Rattle.std.specs.Borrow.{sem, follows};
ghost use Rattle.std.specs.Vec.{with_item};
ghost use Rattle.rules.specs.contracts.order.Standing.{the_row as standing_row};
ghost use Rattle.market.specs.declared.refusal.Refusal.TheVariants.{DayNotOpen};
ghost use Rattle.rules.specs.Calls.{unless};
ghost use Rattle.rules.specs.Orders.{order_at, with_live};
ghost use Rattle.floor_day.specs.contracts.tables.OrderTable.{the_row};

use market::{Quantity, Refusal};
use rules::{Agreement, Name, Refused, Security, Standing};

// The orders and the cancels of a day take at most so many places together.
pub const PLACES: usize = 512;

// The orders and the cancels of the day, in the sequence accepted.
#[derive(Drop)]
pub struct OrderTable {
    pub orders: Vec<Standing>,
    pub cancels: Vec<Name>,
}

// All that a floor keeps but its ledger and its tape.
#[derive(Drop)]
pub struct Day {
    // A flag beside the tables, and no Option of them: after a close they stay to be read.
    pub is_open: bool,
    // 0 before the first opening, as a tape's date is.
    pub last_date: u32,
    pub securities: Vec<Security>,
    pub table: OrderTable,
    pub agreed: Vec<Agreement>,
    pub deals: u32,
}

impl Day {
    // Whether a day is open, as the calls but an opening ask.
    pub fn check_open(&self) -> Result<(), Refused>
        ensures { result ≡ unless self.now.is_open DayNotOpen (Ok tt) }
    {
        if self.is_open {
            Ok(())
        } else {
            Err(Refused::Floor(Refusal::DayNotOpen))
        }
    }
}

impl OrderTable {
    // So much of the order at place k is live from now on, if there is one; nothing else changes.
    pub fn set_live(&mut self, k: usize, n: Quantity)
        ensures orders { self.new.orders.items ≡ slice_set self.old.orders.items k (with_live (order_at self.old.orders.items k) n.number) }
        ensures len { vec_len self.new.orders ≡ vec_len self.old.orders }
        ensures capacity { vec_capacity self.new.orders ≡ vec_capacity self.old.orders }
        ensures cancels { self.new.cancels ≡ self.old.cancels }
    {
        if let Some(x) = self.orders.get_mut(k) {
            x.live = n;
        }
    }
}
