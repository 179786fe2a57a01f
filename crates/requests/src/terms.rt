ghost use Rattle.std.specs.Prelude.{◌≡◌};
ghost use Rattle.rules.specs.Listing.{quoted};
ghost use Rattle.requests.specs.Terms.{terms_answer};

use market::{Price, Refusal};
use rules::{Order, Refused, Security};

// Whether the price may be asked for the security.
fn is_quoted(s: &Security, p: Price) -> bool
    ensures { result ≡ quoted s.now p }
{
    s.low <= p && p <= s.high && s.class.on_step(p)
}

// The hours, price, amount and least size of an order for a listed security.
pub fn check_terms(s: &Security, o: &Order) -> Result<(), Refused>
    ensures { result ≡ terms_answer s.now o.now }
{
    if !s.class.trades_at(o.time) {
        return Err(Refused::Floor(Refusal::OutsideHours));
    }
    if !is_quoted(s, o.price) {
        return Err(Refused::Floor(Refusal::BadPrice));
    }
    if !o.quantity.times(o.price).within_limit() {
        return Err(Refused::Floor(Refusal::AmountTooLarge));
    }
    if !s.class.reaches_least_size(o.quantity, o.price) {
        return Err(Refused::Floor(Refusal::BelowLeastSize));
    }
    Ok(())
}
