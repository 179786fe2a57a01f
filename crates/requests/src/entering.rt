ghost use Rattle.std.specs.Prelude.{◌≡◌, true, if◌then◌else◌, Some, None};
ghost use Rattle.rules.specs.Checks.{names_partner, entry_in_range, kind_for, number_for, order_for};
ghost use Rattle.requests.specs.Narrow.{EntryBounds};

use lookups::quote_number;
use market::{Figure, OrderKind, Price, Quantity, Sort};
use rules::{Entry, Order, Standing};

// Only a deal order names a counterpart and a number.
fn names_partner(sort: Sort, counterpart: u64, agreement: u64) -> bool
    ensures { result ≡ names_partner sort counterpart agreement }
{
    match sort {
        Sort::Intention | Sort::FirmQuote => counterpart == 0 && agreement == 0,
        Sort::DealOrder => {
            Figure::Unit.admits(counterpart) && Figure::AgreementNumber.admits(agreement)
        }
    }
}

fn is_in_range(e: &Entry) -> bool
    ensures value { result ≡ entry_in_range e.now }
    ensures bounds { result ≡ true → EntryBounds e.now }
{
    Figure::Unit.admits(e.unit)
        && Figure::Serial.admits(e.serial)
        && Figure::Account.admits(e.account)
        && Figure::SecurityCode.admits(e.security)
        && Figure::Quantity.admits(e.quantity)
        && Figure::Price.admits(e.price)
        && names_partner(e.sort, e.counterpart, e.agreement)
        && Figure::Time.admits(e.time)
}

// The number of a deal order says whether it is negotiated or clicks on a firm quote.
fn kind_for(sort: Sort, number: u64) -> OrderKind
    ensures { result ≡ kind_for sort number }
{
    match (sort, number) {
        (Sort::Intention, _) => OrderKind::Intention,
        (Sort::FirmQuote, _) => OrderKind::FirmQuote,
        (Sort::DealOrder, 0..=999_999) => OrderKind::Negotiated,
        (Sort::DealOrder, _) => OrderKind::Click,
    }
}

// A firm quote is given its number, a deal order brings its own.
fn number_for(sort: Sort, orders: &[Standing], number: u32) -> u32
    ensures { result ≡ number_for sort orders.now number }
{
    match sort {
        Sort::Intention => 0,
        Sort::FirmQuote => quote_number(orders),
        Sort::DealOrder => number,
    }
}

// The order that an entry becomes behind the table, if every figure is in range.
pub fn order_for(orders: &[Standing], e: &Entry) -> Option<Order>
    ensures { result ≡ (if entry_in_range e.now then Some (order_for orders.now e.now) else None) }
{
    if !is_in_range(e) {
        return None;
    }
    Some(Order {
        side: e.side,
        kind: kind_for(e.sort, e.agreement),
        unit: e.unit as u32,
        serial: e.serial as u32,
        account: e.account,
        security: e.security as u32,
        quantity: Quantity::new(e.quantity as u32),
        price: Price::new(e.price as u32),
        counterpart: e.counterpart as u32,
        agreement: number_for(e.sort, orders, e.agreement as u32),
        time: e.time as u32,
    })
}
