ghost use Rattle.std.specs.Prelude.{◌≡◌, ◌+◌, ◌≤◌, true, is_ok, IfOk, vec_len};
ghost use Rattle.rules.specs.Calls.{enter_answer};
ghost use Rattle.rules.specs.Checks.{order_for};
ghost use Rattle.rules.specs.Orders.{live_count};
ghost use Rattle.floor_day.specs.Days.{state_of, taken};
ghost use Rattle.floor_day.specs.Parts.{told, names_answer, space_answer, listed_parts};

use crate::space::lines_left;
use crate::tables::{Day, OrderTable, PLACES};
use ledger::Ledger;
use lookups::{find_listed, live_count, number_is_free, serial_is_used};
use market::Refusal;
use requests::{check_holding, check_terms, order_for};
use rules::{Entry, Order, Refused, Security};
use tape::Tape;

// The serial is new, and a negotiated number free.
fn check_names(day: &Day, o: &Order) -> Result<(), Refused>
    ensures { result ≡ names_answer day.now.table.orders.items day.now.table.cancels.items day.now.agreed.items o.now }
{
    if serial_is_used(&day.table.orders, &day.table.cancels, o.unit, o.serial) {
        return Err(Refused::Floor(Refusal::SerialUsed));
    }
    if !number_is_free(
        o.kind,
        &day.table.orders,
        &day.agreed,
        o.unit,
        o.counterpart,
        o.agreement,
    ) {
        return Err(Refused::Floor(Refusal::NumberTaken));
    }
    Ok(())
}

// Every live order may still be cancelled: an entry asks for places and lines beyond those.
fn check_space<T: Tape>(table: &OrderTable, tape: &T) -> Result<(), Refused>
    ensures answer { result ≡ space_answer table.now.orders.items table.now.cancels.items (T.Tape.contents tape.now) }
    ensures space { is_ok result ≡ true → (live_count table.now.orders.items + (vec_len table.now.orders + vec_len table.now.cancels)) + 2 ≤ 512 }
{
    let live = live_count(&table.orders);
    let free = PLACES
        .saturating_sub(table.orders.len())
        .saturating_sub(table.cancels.len());
    if free < live + 2 {
        return Err(Refused::Floor(Refusal::TooFewPlaces));
    }
    if lines_left(tape) < live + 3 {
        return Err(Refused::Floor(Refusal::TooFewLines));
    }
    Ok(())
}

// All that is asked of an order whose security is listed.
fn check_listed<L: Ledger, T: Tape>(
    day: &Day,
    ledger: &L,
    tape: &T,
    s: &Security,
    o: &Order,
) -> Result<(), Refused>
    ensures answer { result ≡ listed_parts (state_of day.now (L.Ledger.book ledger.now) (T.Tape.contents tape.now)) s.now o.now }
    ensures space { is_ok result ≡ true → taken (state_of day.now (L.Ledger.book ledger.now) (T.Tape.contents tape.now)) + 2 ≤ 512 }
{
    check_terms(s, o)?;
    check_names(day, o)?;
    check_space(&day.table, tape)?;
    check_holding(ledger, o)
}

// The order that an entry becomes, if every check passes.
pub fn check_entry<L: Ledger, T: Tape>(
    day: &Day,
    ledger: &L,
    tape: &T,
    e: &Entry,
) -> Result<Order, Refused>
    ensures answer { told result ≡ enter_answer (state_of day.now (L.Ledger.book ledger.now) (T.Tape.contents tape.now)) e.now }
    ensures order { IfOk result (λ o. o ≡ order_for day.now.table.orders.items e.now) }
    ensures space { is_ok result ≡ true → taken (state_of day.now (L.Ledger.book ledger.now) (T.Tape.contents tape.now)) + 2 ≤ 512 }
{
    day.check_open()?;
    let order = order_for(&day.table.orders, e).ok_or(Refusal::OutOfRange)?;
    let security = find_listed(&day.securities, order.security).ok_or(Refusal::NotListed)?;
    check_listed(day, ledger, tape, &security, &order)?;
    Ok(order)
}
