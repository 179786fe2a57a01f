ghost use Rattle.std.specs.Prelude.{◌+◌, ◌≤◌, vec_len, vec_capacity};
ghost use Rattle.rules.specs.Orders.{live_count};

use floor_day::Day;
use ledger::Ledger;
use tape::Tape;

// A floor owns its ledger and its tape: only its six calls change them. All memory is taken when it is made.
#[derive(Drop)]
pub struct Floor<L: Ledger, T: Tape> {
    pub(crate) ledger: L,
    pub(crate) tape: T,
    pub(crate) day: Day,
    ghost orders_fit: { 512 ≤ vec_capacity day.table.orders },
    ghost cancels_fit: { 512 ≤ vec_capacity day.table.cancels },
    ghost agreed_fit: { 512 ≤ vec_capacity day.agreed },
    ghost securities_fit: { 64 ≤ vec_capacity day.securities },
    // Every live order has a place left for its cancel.
    ghost places: { live_count day.table.orders.items + (vec_len day.table.orders + vec_len day.table.cancels) ≤ 512 },
    // Each deal came with an entry, and each number agreed with a deal.
    ghost few_deals: { day.deals ≤ vec_len day.table.orders },
    ghost few_agreed: { vec_len day.agreed ≤ day.deals },
}
