// What a ledger means, whatever it is made of: the trait that every ledger keeps, and what follows from it.
#![tactic(auto)]

mod asking;
mod ledger;
mod moving;
mod opening;
mod pair_ledger;
mod settling;

pub use asking::{anything_held, has_in_all};
pub use ledger::Ledger;
pub use moving::{drawn_out, held_back, paid_in, passed_on, released};
pub use opening::opened_for;
pub use pair_ledger::PairLedger;
pub use settling::settle;
