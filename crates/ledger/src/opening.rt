ghost use Rattle.std.specs.Prelude.{◌≡◌};
ghost use Rattle.ledger.specs.Opening.{open_answer, open_after, room_after, SameFigures};

use crate::pair_ledger::PairLedger;
use market::Refusal;

// Opens a pair of any ledger that can. The item is a figure from outside, so it may be any number: no item is as
// large as the largest u32. No figure of any pair changes.
pub fn opened_for<L: PairLedger>(ledger: &mut L, account: u64, item: u64) -> Result<(), Refusal>
    ensures answer { result ≡ open_answer (L.Ledger.book ledger.old) (L.Ledger.room ledger.old item) account item }
    ensures after { L.Ledger.book ledger.new ≡ open_after (L.Ledger.book ledger.old) (L.Ledger.room ledger.old item) account item }
    ensures room { L.Ledger.room ledger.new ≡ room_after result L.PairLedger.shares item (L.Ledger.room ledger.old) }
    ensures figures { SameFigures (L.Ledger.book ledger.old) (L.Ledger.book ledger.new) }
{
    let Ok(item) = u32::try_from(item) else {
        return Err(Refusal::OutOfRange);
    };
    ledger.open_pair(account, item)
}
