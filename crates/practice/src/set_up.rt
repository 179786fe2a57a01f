ghost use Rattle.std.specs.Prelude.{◌≡◌};
ghost use Rattle.floor.specs.View.{whole};
ghost use Rattle.practice.specs.Tasks.{reply_told, move_told, set_up_task, set_up_gathers};
ghost use Rattle.practice.specs.Working.{Did};

use crate::asking::payment_of;
use crate::gathered::Gathered;
use answers::{Answer, NotDone};
use floor::Floor;
use ledger::PairLedger;
use market::Refusal;
use rules::Refused;
use sheet::SetUp;
use tape::Tape;

// What the floor replied, as an answer to the line that asked.
pub(crate) fn reply_answer(reply: Result<usize, Refused>) -> Answer
    ensures { result ≡ reply_told reply }
{
    reply.map_err(NotDone::from)
}

fn pair_answer(moved: Result<(), Refusal>, item: u64) -> Answer
    ensures { result ≡ move_told moved item }
{
    moved
        .map(|()| 0)
        .map_err(|refusal| NotDone::Pair { refusal, item })
}

// A set-up line. An opening takes the gathered securities, whether or not it is accepted.
pub(crate) fn answer_set_up<L: PairLedger, T: Tape>(
    floor: &mut Floor<L, T>,
    gathered: &mut Gathered,
    act: SetUp,
) -> Answer
    ensures did { Did L.PairLedger.shares (whole floor.old) (set_up_task gathered.old.entries.items act) result (whole floor.new) }
    ensures gathers { gathered.new.entries.items ≡ set_up_gathers gathered.old.entries.items act }
{
    match act {
        SetUp::OpenPair { account, item } => pair_answer(floor.open_pair(account, item), item),
        SetUp::OpenDay { date } => {
            let reply = floor.open(date, gathered.entries.as_slice());
            gathered.entries.clear();
            reply_answer(reply)
        }
        SetUp::CloseDay => reply_answer(floor.close()),
        SetUp::Security {
            code,
            class,
            low,
            high,
        } => gathered.gather(code, class, low, high),
        SetUp::PayIn {
            account,
            item,
            amount,
            time,
        } => reply_answer(floor.pay_in(payment_of(account, item, amount, time))),
        SetUp::DrawOut {
            account,
            item,
            amount,
            time,
        } => reply_answer(floor.draw_out(payment_of(account, item, amount, time))),
    }
}
