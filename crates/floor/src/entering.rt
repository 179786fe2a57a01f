ghost use Rattle.std.specs.Prelude.{◌≡◌, ◌+◌, ◌≤◌, false, is_ok};
ghost use Rattle.rules.specs.Calls.{enter_answer, entered};
ghost use Rattle.rules.specs.Replies.{counted, more_lines, left_by};
ghost use Rattle.rules.specs.Effects.{effect};
ghost use Rattle.rules.specs.declared.event.Event.TheVariants.{Entered};
ghost use Rattle.floor_day.specs.Days.{taken};
ghost use Rattle.floor.specs.View.{state, room};

use crate::floor::Floor;
use deciding::{decide, order_line};
use floor_day::check_entry;
use ledger::Ledger;
use lookups::{amount_of, item_of};
use rules::{Entry, Order, Refused, Standing};
use tape::{Line, Tape};

impl<L: Ledger, T: Tape> Floor<L, T> {
    // The order stands behind the table, all of it live; the ledger holds what it needs, the tape tells of it.
    pub(crate) fn entered(&mut self, o: Order)
        requires { taken (state self.old) + 2 ≤ 512 }
        ensures after { state self.new ≡ effect (state self.old) (Entered o) }
        ensures room { room self.new ≡ room self.old }
    {
        let item = item_of(&o);
        let amount = amount_of(&o, o.quantity);
        let line = order_line(&o, o.quantity, o.time);
        // On a floor from new neither is ever refused, by the law of whole runs.
        let _ = self.ledger.hold(o.account, item, amount);
        let _ = self.tape.append(Line::Entry(line));
        self.day.table.orders.push_reserved(Standing {
            order: o,
            live: o.quantity,
        });
    }

    pub fn enter(&mut self, entry: Entry) -> Result<usize, Refused>
        ensures answer { result ≡ counted (enter_answer (state self.old) entry) (more_lines (state self.old) (entered (state self.old) entry)) }
        ensures after { state self.new ≡ left_by result (state self.old) (entered (state self.old) entry) }
        ensures refused_changes_nothing { is_ok result ≡ false → state self.new ≡ state self.old }
        ensures room { room self.new ≡ room self.old }
    {
        let order = check_entry(&self.day, &self.ledger, &self.tape, &entry)?;
        let before = self.tape.count();
        let next = decide(&self.day.securities, &self.day.table.orders, &order);
        self.entered(order);
        self.follow(next, order.time);
        Ok(self.lines_since(before))
    }
}
