ghost use Rattle.std.specs.Prelude.{◌≡◌, false, is_ok};
ghost use Rattle.ledger.specs.Moves.{pay_in_answer, draw_out_answer};
ghost use Rattle.rules.specs.Calls.{pay_in_reply, paid_in, draw_out_reply, drawn_out};
ghost use Rattle.rules.specs.Replies.{counted, more_lines, left_by};
ghost use Rattle.rules.specs.Effects.{effect};
ghost use Rattle.rules.specs.declared.event.Event.TheVariants.{PaidIn, DrawnOut};
ghost use Rattle.floor.specs.View.{state, room, moved};

use crate::floor::Floor;
use floor_day::check_payment;
use ledger::Ledger;
use market::Refusal;
use rules::{Payment, Refused};
use tape::{Line, PaymentLine, Tape};

impl<L: Ledger, T: Tape> Floor<L, T> {
    // The account has so much more of the item, if its ledger grants it. In and out stay apart: each has a move, an
    // event and a line of its own.
    pub(crate) fn paid_in(&mut self, p: PaymentLine) -> Result<(), Refusal>
        ensures answer { result ≡ pay_in_answer (L.Ledger.book self.old.ledger) p.account p.item p.sum }
        ensures after { state self.new ≡ moved result (state self.old) (effect (state self.old) (PaidIn p)) }
        ensures room { room self.new ≡ room self.old }
    {
        self.ledger.pay_in(p.account, p.item, p.sum)?;
        // On a floor from new it is never refused, by the law of whole runs.
        let _ = self.tape.append(Line::PaidIn(p));
        Ok(())
    }

    // The account has so much less of the item, if its ledger grants it.
    pub(crate) fn drawn_out(&mut self, p: PaymentLine) -> Result<(), Refusal>
        ensures answer { result ≡ draw_out_answer (L.Ledger.book self.old.ledger) p.account p.item p.sum }
        ensures after { state self.new ≡ moved result (state self.old) (effect (state self.old) (DrawnOut p)) }
        ensures room { room self.new ≡ room self.old }
    {
        self.ledger.draw_out(p.account, p.item, p.sum)?;
        // On a floor from new it is never refused, by the law of whole runs.
        let _ = self.tape.append(Line::DrawnOut(p));
        Ok(())
    }

    pub fn pay_in(&mut self, payment: Payment) -> Result<usize, Refused>
        ensures answer { result ≡ counted (pay_in_reply (state self.old) payment) (more_lines (state self.old) (paid_in (state self.old) payment)) }
        ensures after { state self.new ≡ left_by result (state self.old) (paid_in (state self.old) payment) }
        ensures refused_changes_nothing { is_ok result ≡ false → state self.new ≡ state self.old }
        ensures room { room self.new ≡ room self.old }
    {
        let line = check_payment(&self.day, &self.tape, &payment)?;
        let before = self.tape.count();
        self.paid_in(line)
            .map_err(|e| Refused::Ledger(e, line.item))?;
        Ok(self.lines_since(before))
    }

    pub fn draw_out(&mut self, payment: Payment) -> Result<usize, Refused>
        ensures answer { result ≡ counted (draw_out_reply (state self.old) payment) (more_lines (state self.old) (drawn_out (state self.old) payment)) }
        ensures after { state self.new ≡ left_by result (state self.old) (drawn_out (state self.old) payment) }
        ensures refused_changes_nothing { is_ok result ≡ false → state self.new ≡ state self.old }
        ensures room { room self.new ≡ room self.old }
    {
        let line = check_payment(&self.day, &self.tape, &payment)?;
        let before = self.tape.count();
        self.drawn_out(line)
            .map_err(|e| Refused::Ledger(e, line.item))?;
        Ok(self.lines_since(before))
    }
}
