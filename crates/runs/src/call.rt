use rules::{CancelOrder, Entry, ListEntry, Payment};

// The date and the list of securities of an opening, as they came.
#[derive(Drop)]
pub struct Opening {
    pub date: u64,
    pub securities: Vec<ListEntry>,
}

// One of the six calls, with what it asks.
#[derive(Drop)]
pub enum Call {
    Open(Opening),
    Enter(Entry),
    Cancel(CancelOrder),
    PayIn(Payment),
    DrawOut(Payment),
    Close,
}
