// Two ledgers as one: money is the bank's, every security the depository's.
#![tactic(auto)]

mod house;
mod keeping;
mod opening;

pub use house::TwoHouse;
