ghost use Rattle.std.specs.Prelude.{◌≡◌};
ghost use Rattle.market.specs.Numbers.{Reads};
ghost use Rattle.market.specs.Refusals.{refusal_number, refusal_of};

use crate::number::BadNumber;

// Every way in which a call can be refused, by whose hand.
#[derive(Clone, Copy, PartialEq, Eq, Debug)]
pub enum Refusal {
    // The writer of a sheet.
    EmptyLine,
    UnknownCode,
    FieldCount,
    NotDigits,
    SheetTooLong,
    // The unit.
    OutOfRange,
    NotListed,
    OutsideHours,
    BadPrice,
    BelowLeastSize,
    AmountTooLarge,
    SerialUsed,
    NumberTaken,
    NoSuchOrder,
    NotLive,
    // The account holder.
    PairNotOpen,
    FreeTooSmall,
    BadPayment,
    TotalTooLarge,
    // The house.
    PairOpen,
    NoLedgerLine,
    DayNotOpen,
    DayOpen,
    BadDate,
    BadList,
    SomethingHeld,
    TooFewPlaces,
    TooFewLines,
    // The caller of a ledger or a tape.
    MoreThanHeld,
    TapeFull,
    NoSuchLine,
    NotATape,
}

impl Refusal {
    pub fn number(self) -> u8
        ensures { result ≡ refusal_number self }
    {
        match self {
            Refusal::EmptyLine => 1,
            Refusal::UnknownCode => 2,
            Refusal::FieldCount => 3,
            Refusal::NotDigits => 4,
            Refusal::SheetTooLong => 6,
            Refusal::OutOfRange => 11,
            Refusal::NotListed => 12,
            Refusal::OutsideHours => 13,
            Refusal::BadPrice => 15,
            Refusal::BelowLeastSize => 16,
            Refusal::AmountTooLarge => 17,
            Refusal::SerialUsed => 18,
            Refusal::NumberTaken => 19,
            Refusal::NoSuchOrder => 20,
            Refusal::NotLive => 21,
            Refusal::PairNotOpen => 31,
            Refusal::FreeTooSmall => 32,
            Refusal::BadPayment => 33,
            Refusal::TotalTooLarge => 34,
            Refusal::PairOpen => 35,
            Refusal::NoLedgerLine => 36,
            Refusal::MoreThanHeld => 37,
            Refusal::DayNotOpen => 41,
            Refusal::DayOpen => 42,
            Refusal::BadDate => 43,
            Refusal::BadList => 44,
            Refusal::SomethingHeld => 45,
            Refusal::TooFewPlaces => 46,
            Refusal::TooFewLines => 47,
            Refusal::TapeFull => 48,
            Refusal::NoSuchLine => 49,
            Refusal::NotATape => 50,
        }
    }
}

impl TryFrom<u64> for Refusal {
    type Error = BadNumber;

    ghost try_from_gives = { Reads refusal_of };

    fn try_from(n: u64) -> Result<Refusal, BadNumber> {
        let refusal = match n {
            1 => Refusal::EmptyLine,
            2 => Refusal::UnknownCode,
            3 => Refusal::FieldCount,
            4 => Refusal::NotDigits,
            6 => Refusal::SheetTooLong,
            11 => Refusal::OutOfRange,
            12 => Refusal::NotListed,
            13 => Refusal::OutsideHours,
            15 => Refusal::BadPrice,
            16 => Refusal::BelowLeastSize,
            17 => Refusal::AmountTooLarge,
            18 => Refusal::SerialUsed,
            19 => Refusal::NumberTaken,
            20 => Refusal::NoSuchOrder,
            21 => Refusal::NotLive,
            31 => Refusal::PairNotOpen,
            32 => Refusal::FreeTooSmall,
            33 => Refusal::BadPayment,
            34 => Refusal::TotalTooLarge,
            35 => Refusal::PairOpen,
            36 => Refusal::NoLedgerLine,
            37 => Refusal::MoreThanHeld,
            41 => Refusal::DayNotOpen,
            42 => Refusal::DayOpen,
            43 => Refusal::BadDate,
            44 => Refusal::BadList,
            45 => Refusal::SomethingHeld,
            46 => Refusal::TooFewPlaces,
            47 => Refusal::TooFewLines,
            48 => Refusal::TapeFull,
            49 => Refusal::NoSuchLine,
            50 => Refusal::NotATape,
            _ => return Err(BadNumber(n)),
        };
        Ok(refusal)
    }
}
