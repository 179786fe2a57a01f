ghost use Rattle.line_ledger.specs.Sharing.{all_share};
ghost use Rattle.std.specs.Prelude.{refl};

use crate::line::LineLedger;
use ledger::PairLedger;
use market::Refusal;

impl PairLedger for LineLedger {
    ghost shares = { all_share };

    ghost own = { λ i. refl };

    fn open_pair(&mut self, account: u64, item: u32) -> Result<(), Refusal> {
        LineLedger::open_pair(self, account, item)
    }
}
