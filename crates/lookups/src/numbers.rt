ghost use Rattle.std.specs.Prelude.{◌≡◌, ◌&&◌, count_by, ◌==◌};
ghost use Rattle.market.specs.declared.kinds.OrderKind.TheVariants.{FirmQuote};
ghost use Rattle.rules.specs.Checks.{is_kind, between_units, has_dealt, number_free_for, quote_number};
ghost use Rattle.lookups.specs.Wanted.{day_of};

use crate::places::{find_waiting, is_kind};
use market::OrderKind;
use rules::{Agreement, Standing};

// The number of the day's first firm quote; each later one has the next below.
const FIRST_QUOTE: usize = 99_999_999;

fn is_between(u: u32, v: u32, a: &Agreement) -> bool
    ensures { result ≡ between_units u v a.now }
{
    (a.buyer == u && a.seller == v) || (a.buyer == v && a.seller == u)
}

// Whether the two units have dealt under the number today, either way round.
pub fn has_dealt(agreed: &[Agreement], u: u32, v: u32, number: u32) -> bool
    ensures { result ≡ has_dealt u v number agreed.now }
{
    agreed
        .iter()
        .any(|a| a.number == number && is_between(u, v, a))
}

// Whether an order of that kind may take the number between the two units; only a negotiated one is asked.
pub fn number_is_free(
    kind: OrderKind,
    orders: &[Standing],
    agreed: &[Agreement],
    u: u32,
    v: u32,
    number: u32,
) -> bool
    ensures { result ≡ number_free_for kind (day_of orders.now agreed.now) u v number }
{
    match kind {
        OrderKind::Intention | OrderKind::FirmQuote | OrderKind::Click => true,
        OrderKind::Negotiated => {
            !has_dealt(agreed, u, v, number)
                && (u == v || find_waiting(orders, u, v, number).is_none())
        }
    }
}

fn quote_count(orders: &[Standing]) -> usize
    ensures { result ≡ count_by (is_kind FirmQuote) orders.now }
{
    orders
        .iter()
        .filter(|x| is_kind(OrderKind::FirmQuote, x))
        .count()
}

// The number that the next firm quote is given.
pub fn quote_number(orders: &[Standing]) -> u32
    ensures { result ≡ quote_number orders.now }
{
    FIRST_QUOTE.saturating_sub(quote_count(orders)) as u32
}
