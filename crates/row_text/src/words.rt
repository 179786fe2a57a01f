ghost use Rattle.std.specs.Prelude.{◌≡◌, Some};
ghost use Rattle.row_text.specs.Words.{word_text};

use std::fmt;

// Every word of a statement.
#[derive(Clone, Copy)]
pub enum Word {
    Tape,
    Date,
    Lines,
    Line,
    Entry,
    Deal,
    Cancel,
    PaidIn,
    DrawnOut,
    Absent,
    Buy,
    Sell,
    Intention,
    FirmQuote,
    Negotiated,
    Click,
    Reason,
    Withdrawn,
    QuoteRest,
    ClickRest,
    Close,
    NoQuote,
    Mismatch,
    Unit,
    Serial,
    Item,
    Account,
    Quantity,
    Price,
    Agreement,
    Time,
    Net,
    Coming,
    Going,
    Refused,
    Order,
    Dealt,
    Cancelled,
    Live,
    Deals,
    Paired,
    Unpaired,
}

impl Word {
    pub fn text(self) -> &'static str
        ensures { result.now ≡ word_text self }
    {
        match self {
            Word::Tape => "tape",
            Word::Date => "date",
            Word::Lines => "lines",
            Word::Line => "line",
            Word::Entry => "entry",
            Word::Deal => "deal",
            Word::Cancel => "cancel",
            Word::PaidIn => "paid-in",
            Word::DrawnOut => "drawn-out",
            Word::Absent => "none",
            Word::Buy => "buy",
            Word::Sell => "sell",
            Word::Intention => "intention",
            Word::FirmQuote => "firm-quote",
            Word::Negotiated => "negotiated",
            Word::Click => "click",
            Word::Reason => "reason",
            Word::Withdrawn => "withdrawn",
            Word::QuoteRest => "quote-rest",
            Word::ClickRest => "click-rest",
            Word::Close => "close",
            Word::NoQuote => "no-quote",
            Word::Mismatch => "mismatch",
            Word::Unit => "unit",
            Word::Serial => "serial",
            Word::Item => "item",
            Word::Account => "account",
            Word::Quantity => "quantity",
            Word::Price => "price",
            Word::Agreement => "agreement",
            Word::Time => "time",
            Word::Net => "net",
            Word::Coming => "coming",
            Word::Going => "going",
            Word::Refused => "refused",
            Word::Order => "order",
            Word::Dealt => "dealt",
            Word::Cancelled => "cancelled",
            Word::Live => "live",
            Word::Deals => "deals",
            Word::Paired => "paired",
            Word::Unpaired => "unpaired",
        }
    }
}

impl fmt::Display for Word {
    ghost output = { λ w. Some (word_text w) };

    fn fmt<W: fmt::Write>(&self, f: &mut fmt::Formatter<W>) -> fmt::Result {
        f.write_str(self.text())
    }
}
