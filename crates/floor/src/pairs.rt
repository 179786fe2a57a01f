ghost use Rattle.std.specs.Prelude.{◌≡◌};
ghost use Rattle.ledger.specs.Opening.{room_after, SameFigures};
ghost use Rattle.rules.specs.Steps.{pair_reply, pair_opened};
ghost use Rattle.floor.specs.View.{state, room};

use crate::floor::Floor;
use ledger::{PairLedger, opened_for};
use market::Refusal;
use tape::Tape;

impl<L: PairLedger, T: Tape> Floor<L, T> {
    // Opens a pair of the ledger, between calls. Only the book is another afterwards, and no figure of it.
    pub fn open_pair(&mut self, account: u64, item: u64) -> Result<(), Refusal>
        ensures answer { result ≡ pair_reply (state self.old) (room self.old item) account item }
        ensures after { state self.new ≡ pair_opened (state self.old) (room self.old item) account item }
        ensures room { room self.new ≡ room_after result L.PairLedger.shares item (room self.old) }
        ensures figures { SameFigures (state self.old).book (state self.new).book }
    {
        opened_for(&mut self.ledger, account, item)
    }
}
