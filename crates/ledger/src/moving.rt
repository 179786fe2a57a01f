ghost use Rattle.std.specs.Prelude.{◌≡◌};
ghost use Rattle.ledger.specs.Moves.{hold_answer, hold_after, release_answer, release_after, pass_answer, pass_after, pay_in_answer, pay_in_after, draw_out_answer, draw_out_after};
ghost use Rattle.ledger.specs.Laws.{Held, Released, Passed, PaidIn, DrawnOut};

use crate::ledger::Ledger;
use market::Refusal;

// The five moves over any ledger, each with the law that it keeps: five functions, since one could not name five laws.

// A hold moves n from free to held, and keeps every total and what every account has.
pub fn held_back<L: Ledger>(ledger: &mut L, account: u64, item: u32, n: u64) -> Result<(), Refusal>
    ensures answer { result ≡ hold_answer (L.Ledger.book ledger.old) account item n }
    ensures after { L.Ledger.book ledger.new ≡ hold_after (L.Ledger.book ledger.old) account item n }
    ensures room { L.Ledger.room ledger.new ≡ L.Ledger.room ledger.old }
    ensures law { Held (L.Ledger.book ledger.old) (L.Ledger.book ledger.new) result account item n }
{
    ledger.hold(account, item, n)
}

// A release moves n from held to free, and keeps as much.
pub fn released<L: Ledger>(ledger: &mut L, account: u64, item: u32, n: u64) -> Result<(), Refusal>
    ensures answer { result ≡ release_answer (L.Ledger.book ledger.old) account item n }
    ensures after { L.Ledger.book ledger.new ≡ release_after (L.Ledger.book ledger.old) account item n }
    ensures room { L.Ledger.room ledger.new ≡ L.Ledger.room ledger.old }
    ensures law { Released (L.Ledger.book ledger.old) (L.Ledger.book ledger.new) result account item n }
{
    ledger.release(account, item, n)
}

// A pass keeps every total: what the giver has less, the taker has more.
pub fn passed_on<L: Ledger>(
    ledger: &mut L,
    from: u64,
    to: u64,
    item: u32,
    n: u64,
) -> Result<(), Refusal>
    ensures answer { result ≡ pass_answer (L.Ledger.book ledger.old) from to item n }
    ensures after { L.Ledger.book ledger.new ≡ pass_after (L.Ledger.book ledger.old) from to item n }
    ensures room { L.Ledger.room ledger.new ≡ L.Ledger.room ledger.old }
    ensures law { Passed (L.Ledger.book ledger.old) (L.Ledger.book ledger.new) result from to item n }
{
    ledger.pass(from, to, item, n)
}

// A payment in is n more in one total, and for one account.
pub fn paid_in<L: Ledger>(ledger: &mut L, account: u64, item: u32, n: u64) -> Result<(), Refusal>
    ensures answer { result ≡ pay_in_answer (L.Ledger.book ledger.old) account item n }
    ensures after { L.Ledger.book ledger.new ≡ pay_in_after (L.Ledger.book ledger.old) account item n }
    ensures room { L.Ledger.room ledger.new ≡ L.Ledger.room ledger.old }
    ensures law { PaidIn (L.Ledger.book ledger.old) (L.Ledger.book ledger.new) result account item n }
{
    ledger.pay_in(account, item, n)
}

// A payment out is n less in one total, and for one account.
pub fn drawn_out<L: Ledger>(ledger: &mut L, account: u64, item: u32, n: u64) -> Result<(), Refusal>
    ensures answer { result ≡ draw_out_answer (L.Ledger.book ledger.old) account item n }
    ensures after { L.Ledger.book ledger.new ≡ draw_out_after (L.Ledger.book ledger.old) account item n }
    ensures room { L.Ledger.room ledger.new ≡ L.Ledger.room ledger.old }
    ensures law { DrawnOut (L.Ledger.book ledger.old) (L.Ledger.book ledger.new) result account item n }
{
    ledger.draw_out(account, item, n)
}
