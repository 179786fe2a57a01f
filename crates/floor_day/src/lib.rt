// The day of a floor, apart from its ledger and its tape: its tables, and the checks of the calls against them.
#![tactic(auto)]

mod cancels;
mod entries;
mod openings;
mod payments;
mod space;
mod tables;

pub use cancels::{check_asked, check_target};
pub use entries::check_entry;
pub use openings::check_opening;
pub use payments::check_payment;
pub use tables::{Day, OrderTable, PLACES};
