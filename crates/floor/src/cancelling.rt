ghost use Rattle.std.specs.Prelude.{◌≡◌, ◌<◌, false, is_ok, vec_len};
ghost use Rattle.rules.specs.Calls.{cancel_answer, cancelled};
ghost use Rattle.rules.specs.Replies.{counted, more_lines, left_by};
ghost use Rattle.rules.specs.Effects.{effect};
ghost use Rattle.rules.specs.declared.event.Event.TheVariants.{Cancelled};
ghost use Rattle.floor.specs.View.{state, room};

use crate::floor::Floor;
use deciding::order_line;
use floor_day::{check_asked, check_target};
use ledger::Ledger;
use lookups::{amount_of, item_of};
use market::{CancelReason, Quantity};
use rules::{CancelOrder, Name, Refused};
use tape::{Line, Tape};

impl<L: Ledger, T: Tape> Floor<L, T> {
    // Nothing of the order at place k is live any more; what it needed is free again.
    pub(crate) fn cancelled(&mut self, k: usize, reason: CancelReason, time: u32)
        requires { k < vec_len self.old.day.table.orders }
        ensures after { state self.new ≡ effect (state self.old) (Cancelled k reason time) }
        ensures room { room self.new ≡ room self.old }
    {
        let x = self.day.table.orders[k];
        let item = item_of(&x.order);
        let amount = amount_of(&x.order, x.live);
        let line = order_line(&x.order, x.live, time);
        // On a floor from new neither is ever refused, by the law of whole runs.
        let _ = self.ledger.release(x.order.account, item, amount);
        let _ = self.tape.append(Line::Cancel(line, reason));
        self.day.table.set_live(k, Quantity::new(0));
    }

    pub fn cancel(&mut self, cancel: CancelOrder) -> Result<usize, Refused>
        ensures answer { result ≡ counted (cancel_answer (state self.old) cancel) (more_lines (state self.old) (cancelled (state self.old) cancel)) }
        ensures after { state self.new ≡ left_by result (state self.old) (cancelled (state self.old) cancel) }
        ensures refused_changes_nothing { is_ok result ≡ false → state self.new ≡ state self.old }
        ensures room { room self.new ≡ room self.old }
    {
        let asked = check_asked(&self.day, &cancel)?;
        let place = check_target(&self.day, &asked)?;
        let before = self.tape.count();
        self.cancelled(place, CancelReason::Withdrawn, asked.time);
        self.day.table.cancels.push_reserved(Name {
            unit: asked.unit,
            serial: asked.serial,
        });
        Ok(self.lines_since(before))
    }
}
