ghost use Rattle.std.specs.Prelude.{◌≡◌, ◌≤◌, true, false, length, is_ok, vec_len, vec_capacity};
ghost use Rattle.rules.specs.Calls.{open_answer, opened, close_answer, closed};
ghost use Rattle.rules.specs.Dealing.{close_events};
ghost use Rattle.rules.specs.Effects.{effects};
ghost use Rattle.rules.specs.Listing.{listed};
ghost use Rattle.rules.specs.Replies.{counted, more_lines, left_by, entry_named, PointsAtFault};
ghost use Rattle.floor.specs.View.{state, room};

use crate::floor::Floor;
use floor_day::check_opening;
use ledger::Ledger;
use lookups::is_live;
use market::{CancelReason, Refusal};
use requests::security_of;
use rules::{ListEntry, Refused, Security};
use tape::Tape;

// The second of the day at which a close cancels.
const CLOSE_TIME: u32 = 55_800;

// The securities of the day are those of the list.
fn list_all(securities: &mut Vec<Security>, list: &[ListEntry])
    requires { length list.now ≤ vec_capacity securities.old }
    ensures items { securities.new.items ≡ listed list.now }
    ensures capacity { vec_capacity securities.new ≡ vec_capacity securities.old }
{
    securities.clear();
    for e in list {
        securities.push_reserved(security_of(e));
    }
}

impl<L: Ledger, T: Tape> Floor<L, T> {
    // An opening empties the table and begins the tape; it writes no line.
    pub fn open(&mut self, date: u64, list: &[ListEntry]) -> Result<usize, Refused>
        ensures answer { result ≡ counted (open_answer (state self.old) date list.now (entry_named result)) 0 }
        ensures names_fault { PointsAtFault result list.now }
        ensures after { state self.new ≡ left_by result (state self.old) (opened (state self.old) date list.now) }
        ensures refused_changes_nothing { is_ok result ≡ false → state self.new ≡ state self.old }
        ensures room { room self.new ≡ room self.old }
    {
        let day = check_opening(&self.day, &self.ledger, date, list)?;
        // The date is in range, so that it is never refused.
        let _ = self.tape.begin(day);
        self.day.table.orders.clear();
        self.day.table.cancels.clear();
        self.day.agreed.clear();
        list_all(&mut self.day.securities, list);
        self.day.deals = 0;
        self.day.last_date = day;
        self.day.is_open = true;
        Ok(0)
    }

    // Every live order is cancelled, in the table's sequence: by place, since each cancel changes the table.
    fn cancel_all(&mut self)
        ensures after { state self.new ≡ effects (state self.old) (close_events self.old.day.table.orders.items) }
        ensures room { room self.new ≡ room self.old }
    {
        let n = self.day.table.orders.len();
        for k in 0..n {
            if is_live(&self.day.table.orders[k]) {
                self.cancelled(k, CancelReason::Close, CLOSE_TIME);
            }
        }
    }

    pub fn close(&mut self) -> Result<usize, Refused>
        ensures answer { result ≡ counted (close_answer (state self.old)) (more_lines (state self.old) (closed (state self.old))) }
        ensures after { state self.new ≡ left_by result (state self.old) (closed (state self.old)) }
        ensures refused_changes_nothing { is_ok result ≡ false → state self.new ≡ state self.old }
        ensures room { room self.new ≡ room self.old }
    {
        self.day.check_open()?;
        let before = self.tape.count();
        self.cancel_all();
        self.day.is_open = false;
        Ok(self.lines_since(before))
    }
}
