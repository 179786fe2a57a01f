// The marker's rows of a tape as text: each order, and whether the deals are paired.
#![tactic(auto)]

mod marks;

pub use marks::push_marks;
