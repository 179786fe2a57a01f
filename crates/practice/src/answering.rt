ghost use Rattle.std.specs.Prelude.{◌≡◌};
ghost use Rattle.sheet.specs.Told.{says};
ghost use Rattle.floor.specs.View.{whole};
ghost use Rattle.practice.specs.Tasks.{task, gathers};
ghost use Rattle.practice.specs.Working.{Did};

use crate::asking::{cancel_of, entry_of};
use crate::gathered::Gathered;
use crate::set_up::{answer_set_up, reply_answer};
use answers::Answer;
use floor::Floor;
use ledger::PairLedger;
use sheet::{Fault, Line};
use tape::Tape;

// What a line is answered, and what it leaves of the floor and of the gathered securities.
pub(crate) fn answer_line<L: PairLedger, T: Tape>(
    floor: &mut Floor<L, T>,
    gathered: &mut Gathered,
    line: Result<Line<'_>, Fault>,
) -> Answer
    ensures did { Did L.PairLedger.shares (whole floor.old) (task gathered.old.entries.items (says line.entry)) result (whole floor.new) }
    ensures gathers { gathered.new.entries.items ≡ gathers gathered.old.entries.items (says line.entry) }
{
    match line? {
        Line::Order { order, .. } => reply_answer(floor.enter(entry_of(order))),
        Line::Cancel { cancel, .. } => reply_answer(floor.cancel(cancel_of(cancel))),
        Line::SetUp { act, .. } => answer_set_up(floor, gathered, act),
    }
}
