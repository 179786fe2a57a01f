// Questions over the tables of a floor: its orders, their names, the numbers agreed, the securities of the day.
#![tactic(auto)]

mod numbers;
mod orders;
mod places;
mod securities;
mod serials;

pub use numbers::{has_dealt, number_is_free, quote_number};
pub use orders::{MONEY, amount_of, is_live, item_of, live_count};
pub use places::{find_order, find_quote, find_waiting};
pub use securities::find_listed;
pub use serials::serial_is_used;
