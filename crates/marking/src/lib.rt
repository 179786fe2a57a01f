// What a marker reads off a tape: the orders that it names, how each was dealt and cancelled, and whether its
// deals are paired.
#![tactic(auto)]

mod account;
mod deals;
mod names;

pub use account::{OrderAccount, account_of};
pub use deals::deals_paired;
pub use names::orders_of;
