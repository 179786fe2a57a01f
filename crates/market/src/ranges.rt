ghost use Rattle.std.specs.Prelude.{◌≡◌};
ghost use Rattle.market.specs.Ranges.{lowest, highest, admits};

// What a plain number may stand for; each has its range.
#[derive(Clone, Copy)]
pub enum Figure {
    Unit,
    Serial,
    Account,
    // Money is item 0, a security its code.
    Item,
    SecurityCode,
    Quantity,
    Price,
    // Seconds of the day.
    Time,
    Date,
    AgreementNumber,
    DealNumber,
    Payment,
}

impl Figure {
    pub fn lowest(self) -> u64
        ensures { result ≡ lowest self }
    {
        match self {
            Figure::Item | Figure::Time | Figure::AgreementNumber => 0,
            _ => 1,
        }
    }

    pub fn highest(self) -> u64
        ensures { result ≡ highest self }
    {
        match self {
            Figure::Unit | Figure::Item | Figure::SecurityCode => 999_999,
            Figure::Serial | Figure::Price | Figure::Date | Figure::AgreementNumber => 99_999_999,
            Figure::Account => 9_999_999_999,
            Figure::Quantity => 999_999_999,
            Figure::Time => 86_399,
            Figure::DealNumber => 4_096,
            Figure::Payment => 1_000_000_000_000_000,
        }
    }

    // Whether the number lies in the figure's range, both ends included.
    pub fn admits(self, n: u64) -> bool
        ensures { result ≡ admits self n }
    {
        self.lowest() <= n && n <= self.highest()
    }
}
