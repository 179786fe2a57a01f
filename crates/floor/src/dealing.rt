ghost use Rattle.std.specs.Prelude.{◌≡◌, ◌+◌, ◌-◌, ◌<◌, ◌≤◌, [], ◌∷◌, ◌++◌, if◌then◌else◌, vec_len, vec_capacity};
ghost use Rattle.market.specs.Figures.{quantity};
ghost use Rattle.market.specs.declared.kinds.OrderKind.TheVariants.{Negotiated};
ghost use Rattle.rules.specs.Checks.{is_kind};
ghost use Rattle.rules.specs.Effects.{effect, agreement};
ghost use Rattle.rules.specs.declared.event.Event.TheVariants.{Dealt};
ghost use Rattle.floor.specs.View.{state, room};

use crate::floor::Floor;
use deciding::order_line;
use ledger::Ledger;
use lookups::MONEY;
use market::{OrderKind, Quantity};
use rules::{Agreement, Standing};
use tape::{Line, Tape};

// The two units of a negotiated deal have dealt under its number.
fn note_agreement(agreed: &mut Vec<Agreement>, b: &Standing, s: &Standing)
    requires { vec_len agreed.old < vec_capacity agreed.old }
    ensures items { agreed.new.items ≡ (if is_kind Negotiated b.now then agreed.old.items ++ (agreement b.now s.now ∷ []) else agreed.old.items) }
    ensures bound { vec_len agreed.new ≤ vec_len agreed.old + 1 }
    ensures capacity { vec_capacity agreed.new ≡ vec_capacity agreed.old }
{
    if b.order.kind == OrderKind::Negotiated {
        agreed.push_reserved(Agreement {
            buyer: b.order.unit,
            seller: s.order.unit,
            number: b.order.agreement,
        });
    }
}

fn rest_of(live: Quantity, q: Quantity) -> Quantity
    ensures { result ≡ quantity (live.number - q.number) }
{
    Quantity::new(live.get().saturating_sub(q.get()))
}

impl<L: Ledger, T: Tape> Floor<L, T> {
    // The order at place `buyer` buys q from the one at place `seller`.
    pub(crate) fn dealt(&mut self, buyer: usize, seller: usize, q: Quantity, time: u32)
        requires buyer { buyer < vec_len self.old.day.table.orders }
        requires seller { seller < vec_len self.old.day.table.orders }
        requires few { self.old.day.deals < vec_len self.old.day.table.orders }
        ensures after { state self.new ≡ effect (state self.old) (Dealt buyer seller q time) }
        ensures room { room self.new ≡ room self.old }
    {
        let b = self.day.table.orders[buyer];
        let s = self.day.table.orders[seller];
        let number = self.day.deals + 1;
        let sheets = q.get() as u64;
        let amount = q.times(b.order.price).get();
        let bought = order_line(&b.order, q, time);
        let sold = order_line(&s.order, q, time);
        let giver = s.order.account;
        let taker = b.order.account;
        // On a floor from new none of the four is ever refused, by the law of whole runs.
        let _ = self.ledger.pass(giver, taker, s.order.security, sheets);
        let _ = self.ledger.pass(taker, giver, MONEY, amount);
        let _ = self.tape.append(Line::Deal(bought, number));
        let _ = self.tape.append(Line::Deal(sold, number));
        note_agreement(&mut self.day.agreed, &b, &s);
        self.day.deals = number;
        self.day.table.set_live(buyer, rest_of(b.live, q));
        self.day.table.set_live(seller, rest_of(s.live, q));
    }
}
