// Refusals in words, and the answers to a sheet with their meaning beside them.
#![tactic(auto)]

mod meaning;
mod notes;
mod rows;

pub use meaning::{meaning_of, refusal_numbered};
pub use rows::explained;
