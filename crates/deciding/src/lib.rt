// What follows once an order stands in the table: it waits, meets its partner, or clicks on a quote. And the line that
// tells of an order.
#![tactic(auto)]

mod clicking;
mod deciding;
mod fitting;
mod lines;
mod meeting;

pub use deciding::decide;
pub use lines::order_line;
