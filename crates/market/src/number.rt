// A number that is outside its range or names nothing of its kind.
#[derive(Clone, Copy, PartialEq, Eq, Debug)]
pub struct BadNumber(pub u64);
