ghost use Rattle.std.specs.Prelude.{◌≡◌, ◌+◌, ◌<◌, length, IfSome};
ghost use Rattle.rules.specs.Dealing.{stands_on, click_short, quote_short, hit, click};
ghost use Rattle.market.specs.Figures.{quantity};
ghost use Rattle.rules.specs.declared.event.Follow.TheVariants.{DealAndCancel};
ghost use Rattle.deciding.specs.Places.{Within, Between};

use crate::fitting::{deal, does_fit, parties};
use market::{CancelReason, Quantity, Side};
use rules::{Follow, Order, Security, Standing};

// Whether the rest of a quote reaches its class's least size.
fn stands_on(security: Option<Security>, quote: &Order, rest: u32) -> bool
    ensures { result ≡ stands_on security quote.now rest }
{
    match security {
        None => false,
        Some(s) => s.class.reaches_least_size(Quantity::new(rest), quote.price),
    }
}

// A deal, after which the rest of the order at one of the two places is cancelled.
fn deal_and_cancel(
    parties: (usize, usize),
    number: u32,
    rest: usize,
    reason: CancelReason,
) -> Follow
    ensures { result ≡ DealAndCancel parties.0 parties.1 (quantity number) rest reason }
{
    let (buyer, seller) = parties;
    Follow::DealAndCancel {
        buyer,
        seller,
        quantity: Quantity::new(number),
        rest,
        reason,
    }
}

// The click at place n takes all that is live of the quote at place k; its own rest is cancelled.
#[tactic(auto, using(crate::proofs::Sides::click_shorted, crate::proofs::Sides::buyer_below, crate::proofs::Sides::seller_below))]
fn click_falls_short(side: Side, n: usize, k: usize, live: u32) -> Follow
    ensures value { result ≡ click_short side n k live }
    ensures within { Between result n k }
{
    deal_and_cancel(parties(side, n, k), live, n, CancelReason::ClickRest)
}

// The quote is left with less than its least size, which is cancelled.
#[tactic(auto, using(crate::proofs::Sides::quote_shorted, crate::proofs::Sides::buyer_below, crate::proofs::Sides::seller_below))]
fn quote_falls_short(side: Side, n: usize, k: usize, asked: u32) -> Follow
    ensures value { result ≡ quote_short side n k asked }
    ensures within { Between result n k }
{
    deal_and_cancel(parties(side, n, k), asked, k, CancelReason::QuoteRest)
}

// The click at place n fits the quote at place k, of which so much is live.
fn hit(
    security: Option<Security>,
    n: usize,
    order: &Order,
    k: usize,
    quote: &Order,
    live: u32,
) -> Follow
    ensures value { result ≡ hit security n order.now k quote.now live }
    ensures within { Between result n k }
{
    let asked = order.quantity.get();
    if live < asked {
        click_falls_short(order.side, n, k, live)
    } else if live == asked {
        deal(order.side, n, k, live)
    } else if stands_on(security, quote, live - asked) {
        deal(order.side, n, k, asked)
    } else {
        quote_falls_short(order.side, n, k, asked)
    }
}

// A click and the firm quote that it names, if any.
pub(crate) fn click(
    security: Option<Security>,
    order: &Order,
    orders: &[Standing],
    found: Option<usize>,
) -> Follow
    requires { IfSome found (λ k. k < length orders.now) }
    ensures value { result ≡ click security (length orders.now) order.now orders.now found }
    ensures within { Within result (length orders.now + 1) }
{
    let n = orders.len();
    match found {
        None => Follow::CancelOne {
            place: n,
            reason: CancelReason::NoQuote,
        },
        Some(k) if does_fit(order, &orders[k]) => {
            let quote = orders[k];
            hit(security, n, order, k, &quote.order, quote.live.get())
        }
        Some(_) => Follow::CancelOne {
            place: n,
            reason: CancelReason::Mismatch,
        },
    }
}
