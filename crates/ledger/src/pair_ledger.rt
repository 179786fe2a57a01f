ghost use Rattle.std.specs.Prelude.{◌≡◌, ℕ, true};
ghost use Rattle.ledger.specs.Opening.{Sharing, open_answer, open_after, room_after, SameFigures};

use crate::ledger::Ledger;
use market::Refusal;

// A ledger that can open pairs. A pair opens with nothing free and nothing held.
pub trait PairLedger: Ledger {
    // Which items share places.
    ghost shares: { Sharing };

    fn open_pair(&mut self, account: u64, item: u32) -> Result<(), Refusal>
        ensures answer { result ≡ open_answer (Self.Ledger.book self.old) (Self.Ledger.room self.old item) account item }
        ensures after { Self.Ledger.book self.new ≡ open_after (Self.Ledger.book self.old) (Self.Ledger.room self.old item) account item }
        ensures room { Self.Ledger.room self.new ≡ room_after result shares item (Self.Ledger.room self.old) }
        ensures figures { SameFigures (Self.Ledger.book self.old) (Self.Ledger.book self.new) };

    ghost own: { (i : ℕ) → shares i i ≡ true };
}
