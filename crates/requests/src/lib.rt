// Requests as they come, judged by their figures: what is in range is handed on in its own type.
#![tactic(auto)]

mod cancelling;
mod classing;
mod entering;
mod holding;
mod listing;
mod opening;
mod paying;
mod terms;

pub use cancelling::{Cancelling, cancel_for};
pub use entering::order_for;
pub use holding::check_holding;
pub use listing::{FaultyList, MOST_SECURITIES, check_list, security_of};
pub use opening::opening_date;
pub use paying::{payment_is_allowed, payment_line_for};
pub use terms::check_terms;
