ghost use Rattle.std.specs.Prelude.{◌≡◌, MatchBool};
ghost use Rattle.ledger.specs.Questions.{any_held, SomeHeld, NoneHeld};
ghost use Rattle.ledger.specs.Laws.{has};

use crate::ledger::Ledger;

// What an account has of an item, free and held together. That the sum fits is the ledger's law.
pub fn has_in_all<L: Ledger>(ledger: &L, account: u64, item: u32) -> u64
    ensures { result ≡ has (L.Ledger.book ledger.now) account item }
{
    ledger.free(account, item) + ledger.held(account, item)
}

// Whether any account holds anything of any item.
pub fn anything_held<L: Ledger>(ledger: &L) -> bool
    ensures answer { result ≡ any_held (L.Ledger.book ledger.now) }
    ensures says { MatchBool result (SomeHeld (L.Ledger.book ledger.now)) (NoneHeld (L.Ledger.book ledger.now)) }
{
    let money = ledger.any_money_held();
    let security = ledger.any_security_held();
    money || security
}
