ghost use Rattle.std.specs.Prelude.{◌≡◌};
ghost use Rattle.market.specs.Figures.{within_limit};

// Thousandths of a yuan. Only quantity × price makes one.
#[derive(Clone, Copy)]
pub struct Amount {
    pub(crate) number: u64,
}

impl Amount {
    // The largest amount of one order.
    pub const LIMIT: u64 = 1_000_000_000_000_000;

    pub fn get(self) -> u64
        ensures { result ≡ self.number }
    {
        self.number
    }

    pub fn within_limit(self) -> bool
        ensures { result ≡ within_limit self }
    {
        self.get() <= Amount::LIMIT
    }
}
