// What the lines of a sheet are answered, and the rows of text that say so.
#![tactic(auto)]

mod answer;
mod rows;
mod words;

pub use answer::{Answer, NotDone};
pub use rows::text_of;
