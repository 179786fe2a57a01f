// A sheet practised over a floor: every line is answered.
#![tactic(auto)]

mod answering;
mod asking;
mod gathered;
mod gathering;
mod running;
mod set_up;

pub use running::{Practice, run_sheet};
