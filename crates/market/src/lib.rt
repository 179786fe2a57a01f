// The figures, kinds, classes and refusals of the negotiated block market.
#![tactic(auto)]

mod amount;
mod class;
mod kinds;
mod number;
mod price;
mod quantity;
mod ranges;
mod refusal;

pub use amount::Amount;
pub use class::Class;
pub use kinds::{CancelReason, OrderKind, Side, Sort};
pub use number::BadNumber;
pub use price::Price;
pub use quantity::Quantity;
pub use ranges::Figure;
pub use refusal::Refusal;
