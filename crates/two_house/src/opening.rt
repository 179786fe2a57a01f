ghost use Rattle.two_house.specs.Houses.{both_share};
ghost use Rattle.two_house.specs.Pairs.{both_own};

use crate::house::TwoHouse;
use crate::keeping::MONEY;
use ledger::PairLedger;
use market::Refusal;

impl<B: PairLedger, D: PairLedger> PairLedger for TwoHouse<B, D> {
    ghost shares = { both_share B.PairLedger.shares D.PairLedger.shares };

    ghost own = { λ i. both_own B.PairLedger.shares D.PairLedger.shares i (B.PairLedger.own i) (D.PairLedger.own i) };

    fn open_pair(&mut self, account: u64, item: u32) -> Result<(), Refusal> {
        if item == MONEY {
            self.bank.open_pair(account, item)
        } else {
            self.depository.open_pair(account, item)
        }
    }
}
