// The rules of the floor: orders, requests, events, and what each call is answered.
#![tactic(auto)]

mod event;
mod order;
mod request;
mod security;
mod worked;

pub use event::{Event, Follow, Refused};
pub use order::{Agreement, Name, Order, Standing};
pub use request::{CancelOrder, Entry, Payment};
pub use security::{ListEntry, Security};
pub use worked::worked_runs_stand;
