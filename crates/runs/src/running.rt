ghost use Rattle.std.specs.Prelude.{◌≡◌, false, is_ok, IfOk};
ghost use Rattle.rules.specs.Replies.{Replied, left_by, accepted};
ghost use Rattle.floor.specs.View.{state, room, whole};
ghost use Rattle.whole_runs.specs.Law.{Law, new_desk};
ghost use Rattle.runs.specs.Acts.{act_of, steps_of, outcomes_of, no_sharing};

use crate::call::Call;
use floor::Floor;
use ledger::Ledger;
use rules::Refused;
use std::alloc::{AllocError, Global};
use tape::Tape;

// Makes a call, whichever it is.
pub fn take<L: Ledger, T: Tape>(floor: &mut Floor<L, T>, call: &Call) -> Result<usize, Refused>
    ensures answer { Replied (state floor.old) (act_of call.now) result }
    ensures after { state floor.new ≡ left_by result (state floor.old) (accepted (state floor.old) (act_of call.now)) }
    ensures refused_changes_nothing { is_ok result ≡ false → state floor.new ≡ state floor.old }
    ensures room { room floor.new ≡ room floor.old }
{
    match call {
        Call::Open(opening) => floor.open(opening.date, &opening.securities),
        Call::Enter(entry) => floor.enter(*entry),
        Call::Cancel(cancel) => floor.cancel(*cancel),
        Call::PayIn(payment) => floor.pay_in(*payment),
        Call::DrawOut(payment) => floor.draw_out(*payment),
        Call::Close => floor.close(),
    }
}

// Makes the calls on a new floor, one after the other, and answers the floor and every answer. The law of whole runs
// holds of all of it: see `Law`.
pub fn run<L: Ledger + Drop, T: Tape + Drop>(
    heap: Global,
    ledger: L,
    tape: T,
    calls: &[Call],
) -> Result<(Floor<L, T>, Vec<Result<usize, Refused>>), AllocError>
    ensures law { IfOk result (λ p. Law no_sharing (new_desk (L.Ledger.book ledger) (L.Ledger.room ledger) (T.Tape.contents tape)) (steps_of calls.now) (outcomes_of p.1.items) (whole p.0)) }
{
    let mut answers = Vec::with_capacity(heap, calls.len())?;
    let mut floor = Floor::new(heap, ledger, tape)?;
    for call in calls {
        let answer = take(&mut floor, call);
        answers.push_reserved(answer);
    }
    Ok((floor, answers))
}
