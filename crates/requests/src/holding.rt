ghost use Rattle.std.specs.Prelude.{◌≡◌};
ghost use Rattle.rules.specs.Calls.{holding_answer};

use ledger::Ledger;
use lookups::{MONEY, amount_of, item_of};
use market::Refusal;
use rules::{Order, Refused};

// Whether the account has both pairs open, and enough free of what the order needs.
pub fn check_holding<L: Ledger>(ledger: &L, o: &Order) -> Result<(), Refused>
    ensures { result ≡ holding_answer (L.Ledger.book ledger.now) o.now }
{
    if !ledger.is_open(o.account, o.security) {
        return Err(Refused::Ledger(Refusal::PairNotOpen, o.security));
    }
    if !ledger.is_open(o.account, MONEY) {
        return Err(Refused::Ledger(Refusal::PairNotOpen, MONEY));
    }
    let item = item_of(o);
    if ledger.free(o.account, item) < amount_of(o, o.quantity) {
        return Err(Refused::Ledger(Refusal::FreeTooSmall, item));
    }
    Ok(())
}
