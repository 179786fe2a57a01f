ghost use Rattle.std.specs.Prelude.{◌≡◌, ◌≤◌, length, IfOk};
ghost use Rattle.rules.specs.Calls.{open_answer};
ghost use Rattle.rules.specs.Replies.{entry_named, PointsAtFault};
ghost use Rattle.floor_day.specs.Days.{state_of, no_tape};
ghost use Rattle.floor_day.specs.Parts.{told};

use crate::tables::Day;
use ledger::Ledger;
use market::Refusal;
use requests::{check_list, opening_date};
use rules::{ListEntry, Refused};

// The date of an opening, if every check passes.
pub fn check_opening<L: Ledger>(
    day: &Day,
    ledger: &L,
    date: u64,
    list: &[ListEntry],
) -> Result<u32, Refused>
    ensures answer { told result ≡ open_answer (state_of day.now (L.Ledger.book ledger.now) no_tape) date list.now (entry_named result) }
    ensures names_fault { PointsAtFault result list.now }
    ensures found { IfOk result (λ d. (d ≡ date) × (length list.now ≤ 64)) }
{
    if day.is_open {
        return Err(Refused::Floor(Refusal::DayOpen));
    }
    let begins = opening_date(date, day.last_date).ok_or(Refusal::BadDate)?;
    check_list(list)?;
    if ledger.any_money_held() || ledger.any_security_held() {
        return Err(Refused::Floor(Refusal::SomethingHeld));
    }
    Ok(begins)
}
