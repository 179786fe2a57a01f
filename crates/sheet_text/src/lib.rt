// Texts of a sheet: its lines, and the figures in them.
#![tactic(auto)]

mod cuts;
mod figures;
mod lines;

pub use cuts::cut;
pub use figures::figure;
pub use lines::first_line;
