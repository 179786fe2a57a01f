ghost use Rattle.std.specs.Prelude.{◌≡◌, ◌<◌, length, IfSome};
ghost use Rattle.rules.specs.Orders.{first_place};
ghost use Rattle.rules.specs.Checks.{is_kind, waits, of_unit, answers_to};
ghost use Rattle.rules.specs.Dealing.{quoted_for};

use crate::orders::is_live;
use market::{OrderKind, Sort};
use rules::{Order, Standing};

pub(crate) fn is_kind(kind: OrderKind, x: &Standing) -> bool
    ensures { result ≡ is_kind kind x.now }
{
    x.order.kind == kind
}

fn is_waiting(unit: u32, partner: u32, number: u32, x: &Standing) -> bool
    ensures { result ≡ waits unit partner number x.now }
{
    is_kind(OrderKind::Negotiated, x)
        && is_live(x)
        && x.order.unit == unit
        && x.order.counterpart == partner
        && x.order.agreement == number
}

fn is_quote_for(order: &Order, x: &Standing) -> bool
    ensures { result ≡ quoted_for order.now x.now }
{
    is_kind(OrderKind::FirmQuote, x)
        && is_live(x)
        && x.order.unit == order.counterpart
        && x.order.agreement == order.agreement
}

pub(crate) fn is_named(unit: u32, serial: u32, x: &Standing) -> bool
    ensures { result ≡ of_unit unit serial x.now }
{
    x.order.unit == unit && x.order.serial == serial
}

fn is_sorted(sort: Sort, unit: u32, serial: u32, x: &Standing) -> bool
    ensures { result ≡ answers_to sort unit serial x.now }
{
    x.order.kind.sort() == sort && is_named(unit, serial, x)
}

// What is found is a place, a number below the table's length and no reference: the floor changes the table by it.

// The live negotiated order of the unit that names its partner with the number.
#[tactic(auto, using(crate::proofs::Seeking::found_within))]
pub fn find_waiting(orders: &[Standing], unit: u32, partner: u32, number: u32) -> Option<usize>
    ensures value { result ≡ first_place (waits unit partner number) orders.now }
    ensures within { IfSome result (λ k. k < length orders.now) }
{
    orders
        .iter()
        .position(|x| is_waiting(unit, partner, number, x))
}

// The live firm quote that a click names.
#[tactic(auto, using(crate::proofs::Seeking::found_within))]
pub fn find_quote(orders: &[Standing], order: &Order) -> Option<usize>
    ensures value { result ≡ first_place (quoted_for order.now) orders.now }
    ensures within { IfSome result (λ k. k < length orders.now) }
{
    orders.iter().position(|x| is_quote_for(order, x))
}

// The unit's order of that sort and serial.
#[tactic(auto, using(crate::proofs::Seeking::found_within))]
pub fn find_order(orders: &[Standing], sort: Sort, unit: u32, serial: u32) -> Option<usize>
    ensures value { result ≡ first_place (answers_to sort unit serial) orders.now }
    ensures within { IfSome result (λ k. k < length orders.now) }
{
    orders.iter().position(|x| is_sorted(sort, unit, serial, x))
}
