use market::{Class, Price};

// A line of the list that an opening is given, as it came: its class may be any number until the list is judged.
#[derive(Clone, Copy)]
pub struct ListEntry {
    pub code: u32,
    pub class: u32,
    pub low: u32,
    pub high: u32,
}

// A security of the day.
#[derive(Clone, Copy)]
pub struct Security {
    pub code: u32,
    pub class: Class,
    pub low: Price,
    pub high: Price,
}
