use market::{CancelReason, OrderKind, Price, Quantity, Side};
use tape::{Line, OrderLine, PaymentLine};

pub(crate) const DATE: u32 = 20_110_831;

const BOND: u32 = 112_001;

// The seller's firm quote: 10,000 sheets at 100 yuan, quote number 99,999,999.
fn quote(quantity: u32, time: u32) -> OrderLine {
    OrderLine {
        side: Side::Sell,
        kind: OrderKind::FirmQuote,
        unit: 20,
        serial: 1,
        security: BOND,
        account: 2_002,
        quantity: Quantity::new(quantity),
        price: Price::new(100_000),
        agreement: 99_999_999,
        time,
    }
}

// The buyer's click on it for 6,000 sheets.
fn click() -> OrderLine {
    OrderLine {
        side: Side::Buy,
        kind: OrderKind::Click,
        unit: 10,
        serial: 1,
        security: BOND,
        account: 1_001,
        quantity: Quantity::new(6_000),
        price: Price::new(100_000),
        agreement: 99_999_999,
        time: 34_260,
    }
}

// An intention that nobody answers.
fn intention(time: u32) -> OrderLine {
    OrderLine {
        side: Side::Buy,
        kind: OrderKind::Intention,
        unit: 10,
        serial: 2,
        security: BOND,
        account: 1_001,
        quantity: Quantity::new(5_000),
        price: Price::new(99_000),
        agreement: 0,
        time,
    }
}

// The lines of the day. The quote's rest of 4,000 is below the least size, so it is cancelled.
pub(crate) fn lines() -> [Line; 10] {
    [
        Line::PaidIn(PaymentLine {
            account: 1_001,
            item: 0,
            sum: 1_200_000_000,
            time: 33_000,
        }),
        Line::PaidIn(PaymentLine {
            account: 2_002,
            item: BOND,
            sum: 20_000,
            time: 33_010,
        }),
        Line::Entry(quote(10_000, 34_200)),
        Line::Entry(click()),
        Line::Deal(click(), 1),
        Line::Deal(quote(6_000, 34_260), 1),
        Line::Cancel(quote(4_000, 34_260), CancelReason::QuoteRest),
        Line::Entry(intention(40_000)),
        Line::DrawnOut(PaymentLine {
            account: 2_002,
            item: 0,
            sum: 500_000_000,
            time: 50_000,
        }),
        Line::Cancel(intention(55_800), CancelReason::Close),
    ]
}
