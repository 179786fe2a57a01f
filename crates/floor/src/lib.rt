// The floor: an order table, a ledger and a tape, and the six calls that change them.
#![tactic(auto)]

mod cancelling;
mod day;
mod dealing;
mod entering;
mod floor;
mod following;
mod making;
mod pairs;
mod paying;

pub use floor::Floor;
