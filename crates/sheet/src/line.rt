use crate::fault::Fault;
use market::{Side, Sort};

// An order as the sheet writes it; no figure's range is judged yet.
// An intention or a firm quote has counterpart and number 0.
#[derive(Clone, Copy)]
pub struct Order {
    pub sort: Sort,
    pub side: Side,
    pub unit: u64,
    pub serial: u64,
    pub account: u64,
    pub code: u64,
    pub quantity: u64,
    pub price: u64,
    pub counterpart: u64,
    pub number: u64,
    pub time: u64,
}

#[derive(Clone, Copy)]
pub struct Cancel {
    pub sort: Sort,
    pub unit: u64,
    pub serial: u64,
    // The serial of the order to cancel.
    pub target: u64,
    pub time: u64,
}

#[derive(Clone, Copy)]
pub enum SetUp {
    OpenPair {
        account: u64,
        item: u64,
    },
    OpenDay {
        date: u64,
    },
    CloseDay,
    // A security for the next opening.
    Security {
        code: u64,
        class: u64,
        low: u64,
        high: u64,
    },
    PayIn {
        account: u64,
        item: u64,
        amount: u64,
        time: u64,
    },
    DrawOut {
        account: u64,
        item: u64,
        amount: u64,
        time: u64,
    },
}

// A line of a sheet that is not refused. `fields` is the text behind its code, and `contact` what follows an order's
// last figure and a blank; both are borrowed from the sheet.
#[derive(Clone, Copy)]
pub enum Line<'a> {
    Order {
        order: Order,
        fields: &'a [u8],
        contact: &'a [u8],
    },
    Cancel {
        cancel: Cancel,
        fields: &'a [u8],
    },
    SetUp {
        act: SetUp,
        fields: &'a [u8],
    },
}

// A line with its place in the sheet, from 1, or why it is refused.
#[derive(Clone, Copy)]
pub struct Numbered<'a> {
    pub place: usize,
    pub line: Result<Line<'a>, Fault>,
}
