ghost use Rattle.std.specs.Prelude.{◌≡◌, ◌+◌, ◌<◌, ◌&&◌, length, IfSome, ◌==◌};
ghost use Rattle.rules.specs.Dealing.{fits, meet};
ghost use Rattle.deciding.specs.Places.{Within};

use crate::fitting::{deal, does_fit};
use rules::{Follow, Order, Standing};

// The order deals with x whole.
fn agrees(order: &Order, x: &Standing) -> bool
    ensures { result ≡ fits order.now x.now && (order.now.quantity.number == x.now.live.number) }
{
    does_fit(order, x) && order.quantity == x.live
}

// A negotiated order and the one that waits for it, if any: all or nothing.
pub(crate) fn meet(order: &Order, orders: &[Standing], found: Option<usize>) -> Follow
    requires { IfSome found (λ k. k < length orders.now) }
    ensures value { result ≡ meet (length orders.now) order.now orders.now found }
    ensures within { Within result (length orders.now + 1) }
{
    let n = orders.len();
    match found {
        None => Follow::Wait,
        Some(k) if agrees(order, &orders[k]) => deal(order.side, n, k, order.quantity.get()),
        Some(k) => Follow::CancelBoth {
            waiting: k,
            entered: n,
        },
    }
}
