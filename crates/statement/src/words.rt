ghost use Rattle.std.specs.Prelude.{◌≡◌};
ghost use Rattle.statement.specs.Words.{kind_word, side_word, order_word, reason_word, order_words};

use market::{CancelReason, OrderKind, Side};
use row_text::Word;
use tape::Line;

// Words for values: functions and no `From`, since values and words are of other crates.
pub(crate) fn kind_word(line: &Line) -> Word
    ensures { result ≡ kind_word line.now }
{
    match line {
        Line::Entry(_) => Word::Entry,
        Line::Deal(_, _) => Word::Deal,
        Line::Cancel(_, _) => Word::Cancel,
        Line::PaidIn(_) => Word::PaidIn,
        Line::DrawnOut(_) => Word::DrawnOut,
    }
}

// The words for what only an order has; a payment has none of it.
#[derive(Clone, Copy)]
pub(crate) struct OrderWords {
    pub(crate) side: Word,
    pub(crate) kind: Word,
    pub(crate) reason: Word,
}

fn side_word(side: Side) -> Word
    ensures { result ≡ side_word side }
{
    match side {
        Side::Buy => Word::Buy,
        Side::Sell => Word::Sell,
    }
}

fn order_word(kind: OrderKind) -> Word
    ensures { result ≡ order_word kind }
{
    match kind {
        OrderKind::Intention => Word::Intention,
        OrderKind::FirmQuote => Word::FirmQuote,
        OrderKind::Negotiated => Word::Negotiated,
        OrderKind::Click => Word::Click,
    }
}

fn reason_word(reason: CancelReason) -> Word
    ensures { result ≡ reason_word reason }
{
    match reason {
        CancelReason::Withdrawn => Word::Withdrawn,
        CancelReason::QuoteRest => Word::QuoteRest,
        CancelReason::ClickRest => Word::ClickRest,
        CancelReason::Close => Word::Close,
        CancelReason::NoQuote => Word::NoQuote,
        CancelReason::Mismatch => Word::Mismatch,
    }
}

pub(crate) fn order_words(line: &Line) -> OrderWords
    ensures { result ≡ order_words line.now }
{
    match line {
        Line::Entry(o) | Line::Deal(o, _) => {
            OrderWords {
                side: side_word(o.side),
                kind: order_word(o.kind),
                reason: Word::Absent,
            }
        }
        Line::Cancel(o, why) => {
            OrderWords {
                side: side_word(o.side),
                kind: order_word(o.kind),
                reason: reason_word(*why),
            }
        }
        Line::PaidIn(_) | Line::DrawnOut(_) => {
            OrderWords {
                side: Word::Absent,
                kind: Word::Absent,
                reason: Word::Absent,
            }
        }
    }
}
