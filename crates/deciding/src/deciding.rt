ghost use Rattle.std.specs.Prelude.{◌≡◌, ◌+◌, length};
ghost use Rattle.rules.specs.Dealing.{decide};
ghost use Rattle.deciding.specs.Places.{Within};

use crate::clicking::click;
use crate::meeting::meet;
use lookups::{find_listed, find_quote, find_waiting};
use market::OrderKind;
use rules::{Follow, Order, Security, Standing};

// What follows once the order stands behind the table.
pub fn decide(securities: &[Security], orders: &[Standing], order: &Order) -> Follow
    ensures value { result ≡ decide securities.now orders.now order.now }
    ensures within { Within result (length orders.now + 1) }
{
    match order.kind {
        OrderKind::Intention | OrderKind::FirmQuote => Follow::Wait,
        OrderKind::Negotiated => {
            let found = find_waiting(orders, order.counterpart, order.unit, order.agreement);
            meet(order, orders, found)
        }
        OrderKind::Click => {
            let found = find_quote(orders, order);
            click(
                find_listed(securities, order.security),
                order,
                orders,
                found,
            )
        }
    }
}
