use market::{Side, Sort};

// An order as a unit asks for it; no figure's range is judged yet.
#[derive(Clone, Copy)]
pub struct Entry {
    pub sort: Sort,
    pub side: Side,
    pub unit: u64,
    pub serial: u64,
    pub account: u64,
    pub security: u64,
    pub quantity: u64,
    pub price: u64,
    pub counterpart: u64,
    pub agreement: u64,
    pub time: u64,
}

// A cancel as a unit asks for it: its own serial, and the sort and serial of the order.
#[derive(Clone, Copy)]
pub struct CancelOrder {
    pub sort: Sort,
    pub unit: u64,
    pub serial: u64,
    pub target: u64,
    pub time: u64,
}

// A payment in or out, as an account holder asks for it.
#[derive(Clone, Copy)]
pub struct Payment {
    pub account: u64,
    pub item: u64,
    pub sum: u64,
    pub time: u64,
}
