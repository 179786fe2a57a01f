use market::{OrderKind, Price, Quantity, Side};

// An order as it was accepted; none of it ever changes.
#[derive(Clone, Copy)]
pub struct Order {
    pub side: Side,
    pub kind: OrderKind,
    pub unit: u32,
    pub serial: u32,
    pub account: u64,
    pub security: u32,
    pub quantity: Quantity,
    pub price: Price,
    // The unit that a deal order names, else 0, as an entry has it.
    pub counterpart: u32,
    // A deal order's number, or the number that a firm quote was given; 0 for an intention, as
    // its lines have it.
    pub agreement: u32,
    pub time: u32,
}

// A place of the order table: an order, and how much of it is live.
#[derive(Clone, Copy)]
pub struct Standing {
    pub order: Order,
    pub live: Quantity,
}

// What a unit calls an order or a cancel of its own.
#[derive(Clone, Copy, PartialEq, Eq)]
pub struct Name {
    pub unit: u32,
    pub serial: u32,
}

// A number under which two units have dealt.
#[derive(Clone, Copy)]
pub struct Agreement {
    pub buyer: u32,
    pub seller: u32,
    pub number: u32,
}
