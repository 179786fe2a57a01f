ghost use Rattle.std.specs.Prelude.{◌≡◌};
ghost use Rattle.rules.specs.Orders.{is_live, live_count, item_of, amount_of};

use market::{Quantity, Side};
use rules::{Order, Standing};

// The item that money is.
pub const MONEY: u32 = 0;

// Whether anything of the order is live.
pub fn is_live(x: &Standing) -> bool
    ensures { result ≡ is_live x.now }
{
    0 < x.live.get()
}

pub fn live_count(orders: &[Standing]) -> usize
    ensures { result ≡ live_count orders.now }
{
    orders.iter().filter(|x| is_live(x)).count()
}

// What an order needs: a seller the security, a buyer money.
pub fn item_of(order: &Order) -> u32
    ensures { result ≡ item_of order.now }
{
    match order.side {
        Side::Buy => MONEY,
        Side::Sell => order.security,
    }
}

// How much of it, for that quantity of the order.
pub fn amount_of(order: &Order, q: Quantity) -> u64
    ensures { result ≡ amount_of order.now q }
{
    match order.side {
        Side::Buy => q.times(order.price).get(),
        Side::Sell => q.get() as u64,
    }
}
