// A ledger that keeps one record for each open pair.
#![tactic(auto)]

mod keeping;
mod line;
mod looking;
mod opening;
mod pairs;
mod record;

pub use line::LineLedger;
pub use record::PairRecord;
