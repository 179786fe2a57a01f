ghost use Rattle.std.specs.Prelude.{◌≡◌};
ghost use Rattle.ledger.specs.Settling.{settle_answer, settle_after};

use crate::ledger::Ledger;
use market::Refusal;

// Holds n for `from`, then passes it on to `to`.
pub fn settle<L: Ledger>(
    ledger: &mut L,
    from: u64,
    to: u64,
    item: u32,
    n: u64,
) -> Result<(), Refusal>
    ensures answer { result ≡ settle_answer (L.Ledger.book ledger.old) from to item n }
    ensures after { L.Ledger.book ledger.new ≡ settle_after (L.Ledger.book ledger.old) from to item n }
    ensures room { L.Ledger.room ledger.new ≡ L.Ledger.room ledger.old }
{
    ledger.hold(from, item, n)?;
    ledger.pass(from, to, item, n)
}
