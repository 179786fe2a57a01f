// A reader over the bytes of a sheet. It hands out one line at a time: an order, a cancel, a set-up
// line, or why the line is refused.
#![tactic(auto)]

mod building;
mod codes;
mod fault;
mod fields;
mod line;
mod parsing;
mod reader;
mod reading;

pub use fault::Fault;
pub use line::{Cancel, Line, Numbered, Order, SetUp};
pub use parsing::read_line;
pub use reader::Reader;
