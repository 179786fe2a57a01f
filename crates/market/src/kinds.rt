ghost use Rattle.std.specs.Prelude.{◌≡◌};
ghost use Rattle.market.specs.Kinds.{side_number, side_of, kind_number, kind_of, sort_number, sort_of_kind, reason_number, reason_of};
ghost use Rattle.market.specs.Numbers.{Reads};

use crate::number::BadNumber;

#[derive(Clone, Copy, PartialEq, Eq)]
pub enum Side {
    Buy,
    Sell,
}

#[derive(Clone, Copy, PartialEq, Eq)]
pub enum OrderKind {
    Intention,
    FirmQuote,
    Negotiated,
    Click,
}

// What a cancel names its order by; a deal order is negotiated or a click.
#[derive(Clone, Copy, PartialEq, Eq)]
pub enum Sort {
    Intention,
    FirmQuote,
    DealOrder,
}

// Why an order's live quantity was cancelled.
#[derive(Clone, Copy, PartialEq, Eq)]
pub enum CancelReason {
    // By its own unit.
    Withdrawn,
    // The rest of a quote fell below the least size.
    QuoteRest,
    // The rest of a click found nothing left.
    ClickRest,
    Close,
    // A click found no such quote.
    NoQuote,
    // The two orders do not agree.
    Mismatch,
}

// Numbers are told by `number` and not by `From`: they are those of tapes and rows.
impl Side {
    pub fn number(self) -> u8
        ensures { result ≡ side_number self }
    {
        match self {
            Side::Buy => 1,
            Side::Sell => 2,
        }
    }
}

impl TryFrom<u8> for Side {
    type Error = BadNumber;

    ghost try_from_gives = { Reads side_of };

    fn try_from(n: u8) -> Result<Side, BadNumber> {
        match n {
            1 => Ok(Side::Buy),
            2 => Ok(Side::Sell),
            _ => Err(BadNumber(u64::from(n))),
        }
    }
}

impl OrderKind {
    pub fn number(self) -> u8
        ensures { result ≡ kind_number self }
    {
        match self {
            OrderKind::Intention => 1,
            OrderKind::FirmQuote => 2,
            OrderKind::Negotiated => 3,
            OrderKind::Click => 4,
        }
    }

    pub fn sort(self) -> Sort
        ensures { result ≡ sort_of_kind self }
    {
        match self {
            OrderKind::Intention => Sort::Intention,
            OrderKind::FirmQuote => Sort::FirmQuote,
            OrderKind::Negotiated | OrderKind::Click => Sort::DealOrder,
        }
    }
}

impl TryFrom<u8> for OrderKind {
    type Error = BadNumber;

    ghost try_from_gives = { Reads kind_of };

    fn try_from(n: u8) -> Result<OrderKind, BadNumber> {
        match n {
            1 => Ok(OrderKind::Intention),
            2 => Ok(OrderKind::FirmQuote),
            3 => Ok(OrderKind::Negotiated),
            4 => Ok(OrderKind::Click),
            _ => Err(BadNumber(u64::from(n))),
        }
    }
}

impl Sort {
    pub fn number(self) -> u8
        ensures { result ≡ sort_number self }
    {
        match self {
            Sort::Intention => 1,
            Sort::FirmQuote => 2,
            Sort::DealOrder => 3,
        }
    }
}

impl CancelReason {
    pub fn number(self) -> u8
        ensures { result ≡ reason_number self }
    {
        match self {
            CancelReason::Withdrawn => 1,
            CancelReason::QuoteRest => 2,
            CancelReason::ClickRest => 3,
            CancelReason::Close => 4,
            CancelReason::NoQuote => 18,
            CancelReason::Mismatch => 19,
        }
    }
}

impl TryFrom<u8> for CancelReason {
    type Error = BadNumber;

    ghost try_from_gives = { Reads reason_of };

    fn try_from(n: u8) -> Result<CancelReason, BadNumber> {
        match n {
            1 => Ok(CancelReason::Withdrawn),
            2 => Ok(CancelReason::QuoteRest),
            3 => Ok(CancelReason::ClickRest),
            4 => Ok(CancelReason::Close),
            18 => Ok(CancelReason::NoQuote),
            19 => Ok(CancelReason::Mismatch),
            _ => Err(BadNumber(u64::from(n))),
        }
    }
}
