ghost use Rattle.std.specs.Prelude.{◌≡◌};
ghost use Rattle.rules.specs.Dealing.{opposite, fits, deal};
ghost use Rattle.deciding.specs.Places.{Between, parties};

use market::{Quantity, Side};
use rules::{Follow, Order, Standing};

fn is_opposite(a: Side, b: Side) -> bool
    ensures { result ≡ opposite a b }
{
    a != b
}

// One security at one price, from opposite sides.
pub(crate) fn does_fit(order: &Order, x: &Standing) -> bool
    ensures { result ≡ fits order.now x.now }
{
    is_opposite(order.side, x.order.side)
        && order.security == x.order.security
        && order.price == x.order.price
}

// The buyer's place and the seller's, where a newcomer of that side at place n meets the order at place k.
pub(crate) fn parties(side: Side, n: usize, k: usize) -> (usize, usize)
    ensures { result ≡ parties side n k }
{
    match side {
        Side::Buy => (n, k),
        Side::Sell => (k, n),
    }
}

// A newcomer of that side at place n deals with the order at place k.
#[tactic(auto, using(crate::proofs::Sides::dealt, crate::proofs::Sides::buyer_below, crate::proofs::Sides::seller_below))]
pub(crate) fn deal(side: Side, n: usize, k: usize, number: u32) -> Follow
    ensures value { result ≡ deal side n k number }
    ensures within { Between result n k }
{
    let (buyer, seller) = parties(side, n, k);
    Follow::Deal {
        buyer,
        seller,
        quantity: Quantity::new(number),
    }
}
