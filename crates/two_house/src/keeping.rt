ghost use Rattle.two_house.specs.Houses.{both, both_room};
ghost use Rattle.two_house.specs.Parts.{both_lawful};

use crate::house::TwoHouse;
use ledger::Ledger;
use market::Refusal;

pub(crate) const MONEY: u32 = 0;

// Each question and move goes to one house or the other; the two have types of their own, so no reference stands for
// both.
impl<B: Ledger, D: Ledger> Ledger for TwoHouse<B, D> {
    ghost book = { λ s. both (B.Ledger.book s.bank) (D.Ledger.book s.depository) };

    ghost room = { λ s. both_room (B.Ledger.room s.bank) (D.Ledger.room s.depository) };

    ghost lawful = { λ x. both_lawful _ _ (B.Ledger.lawful x.bank) (D.Ledger.lawful x.depository) };

    fn is_open(&self, account: u64, item: u32) -> bool {
        if item == MONEY {
            self.bank.is_open(account, item)
        } else {
            self.depository.is_open(account, item)
        }
    }

    fn free(&self, account: u64, item: u32) -> u64 {
        if item == MONEY {
            self.bank.free(account, item)
        } else {
            self.depository.free(account, item)
        }
    }

    fn held(&self, account: u64, item: u32) -> u64 {
        if item == MONEY {
            self.bank.held(account, item)
        } else {
            self.depository.held(account, item)
        }
    }

    fn any_money_held(&self) -> bool {
        self.bank.any_money_held()
    }

    fn any_security_held(&self) -> bool {
        self.depository.any_security_held()
    }

    fn hold(&mut self, account: u64, item: u32, n: u64) -> Result<(), Refusal> {
        if item == MONEY {
            self.bank.hold(account, item, n)
        } else {
            self.depository.hold(account, item, n)
        }
    }

    fn release(&mut self, account: u64, item: u32, n: u64) -> Result<(), Refusal> {
        if item == MONEY {
            self.bank.release(account, item, n)
        } else {
            self.depository.release(account, item, n)
        }
    }

    fn pass(&mut self, from: u64, to: u64, item: u32, n: u64) -> Result<(), Refusal> {
        if item == MONEY {
            self.bank.pass(from, to, item, n)
        } else {
            self.depository.pass(from, to, item, n)
        }
    }

    fn pay_in(&mut self, account: u64, item: u32, n: u64) -> Result<(), Refusal> {
        if item == MONEY {
            self.bank.pay_in(account, item, n)
        } else {
            self.depository.pay_in(account, item, n)
        }
    }

    fn draw_out(&mut self, account: u64, item: u32, n: u64) -> Result<(), Refusal> {
        if item == MONEY {
            self.bank.draw_out(account, item, n)
        } else {
            self.depository.draw_out(account, item, n)
        }
    }
}
