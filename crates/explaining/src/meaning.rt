ghost use Rattle.std.specs.Prelude.{◌≡◌};
ghost use Rattle.explaining.specs.Meanings.{meaning, refusal_numbered, NumbersBack};

use market::Refusal;

// What a refusal means, in words: a text and no Display, since rows of bytes take it as it is.
pub fn meaning_of(refusal: Refusal) -> &'static str
    ensures { result.now ≡ meaning refusal }
{
    match refusal {
        Refusal::EmptyLine => "empty line",
        Refusal::UnknownCode => "unknown code",
        Refusal::FieldCount => "field missing or too many",
        Refusal::NotDigits => "field not 1 to 18 digits",
        Refusal::SheetTooLong => "sheet over 65,536 bytes",
        Refusal::OutOfRange => "figure out of range",
        Refusal::NotListed => "security not listed",
        Refusal::OutsideHours => "outside the hours of its class",
        Refusal::BadPrice => "price outside lowest to highest, or no multiple of the step",
        Refusal::BelowLeastSize => "below the least size",
        Refusal::AmountTooLarge => "amount above 10^15",
        Refusal::SerialUsed => "serial used by this unit today",
        Refusal::NumberTaken => "agreement number taken between these two units",
        Refusal::NoSuchOrder => "no order of that sort and serial",
        Refusal::NotLive => "order not live",
        Refusal::PairNotOpen => "pair of account and item not open",
        Refusal::FreeTooSmall => "free is too small",
        Refusal::BadPayment => "payment of 0 or above 10^15",
        Refusal::TotalTooLarge => "total of the item would pass 10^18",
        Refusal::PairOpen => "pair open already",
        Refusal::NoLedgerLine => "no ledger line left",
        Refusal::MoreThanHeld => "more than is held",
        Refusal::DayNotOpen => "no day open",
        Refusal::DayOpen => "a day is open",
        Refusal::BadDate => "date out of range, or not later than the last",
        Refusal::BadList => "list of securities faulty",
        Refusal::SomethingHeld => "something is held",
        Refusal::TooFewPlaces => "too few free places in the order table",
        Refusal::TooFewLines => "too few free lines on the tape",
        Refusal::TapeFull => "tape full",
        Refusal::NoSuchLine => "no such line",
        Refusal::NotATape => "bytes are no tape",
    }
}

// The refusal of a number, if there is one. Every refusal is found again by its number.
pub fn refusal_numbered(number: u64) -> Option<Refusal>
    ensures value { result ≡ refusal_numbered number }
    ensures back { NumbersBack }
{
    Refusal::try_from(number).ok()
}
