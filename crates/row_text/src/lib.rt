// Rows of text: a first word, then cells, each after a blank.
#![tactic(auto)]

mod cells;
mod words;

pub use cells::{Cell, push_row};
pub use words::Word;
