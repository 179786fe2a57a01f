// The statement of a tape: its lines and its nets as rows of text.
#![tactic(auto)]

mod pairs;
mod rows;
mod statement;
mod words;

pub use statement::{reconciled, statement_of};
