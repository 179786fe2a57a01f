ghost use Rattle.line_ledger.specs.Lines.{line_book, line_room};
ghost use Rattle.line_ledger.specs.Reading.{kept_lawful};

use crate::line::LineLedger;
use ledger::Ledger;
use market::Refusal;

// The most that an item's total may be.
const LIMIT: u64 = 1_000_000_000_000_000_000;

#[tactic(auto, using(crate::proofs::Writing::writes), unfolding(ledger::specs::Books::limit, ledger::specs::Moves::edit, ledger::specs::Moves::hold_answer, ledger::specs::Moves::hold_after, ledger::specs::Moves::release_answer, ledger::specs::Moves::release_after, ledger::specs::Moves::pass_answer, ledger::specs::Moves::pass_after, ledger::specs::Moves::pay_in_answer, ledger::specs::Moves::pay_in_after, ledger::specs::Moves::draw_out_answer, ledger::specs::Moves::draw_out_after))]
impl Ledger for LineLedger {
    ghost book = { line_book };

    ghost room = { λ s i. line_room s };

    ghost lawful = { λ x. kept_lawful x.rows.items x.kept };

    fn is_open(&self, account: u64, item: u32) -> bool {
        self.place(account, item).is_ok()
    }

    fn free(&self, account: u64, item: u32) -> u64 {
        self.record_of(account, item).free
    }

    fn held(&self, account: u64, item: u32) -> u64 {
        self.record_of(account, item).held
    }

    fn any_money_held(&self) -> bool {
        self.rows.iter().any(|p| p.item == 0 && p.held > 0)
    }

    fn any_security_held(&self) -> bool {
        self.rows.iter().any(|p| p.item != 0 && p.held > 0)
    }

    // Hold and release stay two moves: their lines go opposite ways, and each has its own refusal.
    fn hold(&mut self, account: u64, item: u32, n: u64) -> Result<(), Refusal> {
        let k = self.place(account, item)?;
        let p = &mut self.rows[k];
        if p.free < n {
            return Err(Refusal::FreeTooSmall);
        }
        p.free -= n;
        p.held += n;
        Ok(())
    }

    fn release(&mut self, account: u64, item: u32, n: u64) -> Result<(), Refusal> {
        let k = self.place(account, item)?;
        let p = &mut self.rows[k];
        if p.held < n {
            return Err(Refusal::MoreThanHeld);
        }
        p.held -= n;
        p.free += n;
        Ok(())
    }

    fn pass(&mut self, from: u64, to: u64, item: u32, n: u64) -> Result<(), Refusal> {
        let giver = self.place(from, item)?;
        let taker = self.place(to, item)?;
        if self.rows[giver].held < n {
            return Err(Refusal::MoreThanHeld);
        }
        self.rows[giver].held -= n;
        self.rows[taker].free += n;
        Ok(())
    }

    fn pay_in(&mut self, account: u64, item: u32, n: u64) -> Result<(), Refusal> {
        let k = self.place(account, item)?;
        if n > LIMIT - self.total_of(item) {
            return Err(Refusal::TotalTooLarge);
        }
        self.rows[k].free += n;
        Ok(())
    }

    fn draw_out(&mut self, account: u64, item: u32, n: u64) -> Result<(), Refusal> {
        let k = self.place(account, item)?;
        if self.rows[k].free < n {
            return Err(Refusal::FreeTooSmall);
        }
        self.rows[k].free -= n;
        Ok(())
    }
}
