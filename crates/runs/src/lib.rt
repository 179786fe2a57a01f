// Any call of the floor as one, and whole runs of calls.
#![tactic(auto)]

mod call;
mod running;

pub use call::{Call, Opening};
pub use running::{run, take};
