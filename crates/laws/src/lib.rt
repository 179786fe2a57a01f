// The laws of events. Each function answers nothing: its promise is the law.
#![tactic(auto)]

ghost use Rattle.laws.specs.Accepted.{EntriesValid, CancelsValid, PaymentsInValid, PaymentsOutValid, ClosesValid};
ghost use Rattle.laws.specs.Agreed.{EntriesAgreed};
ghost use Rattle.laws.specs.Dealings.{StandingLaw, NegotiatedLaw, ClickLaw, CancelLaw, CloseLaw, NumbersLaw};
ghost use Rattle.laws.specs.Ending.{EntriesStrict};
ghost use Rattle.laws.specs.First.{EntriesFirst, OrdersFirst};
ghost use Rattle.laws.specs.Fitting.{PartInRange, LinesTaken};
ghost use Rattle.laws.specs.Paired.{DealsPaired};
ghost use Rattle.laws.specs.Plainly.{EntriesPlain, CancelsPlain, ClosesPlain};
ghost use Rattle.laws.specs.Reserves.{LoadEntered, LoadCancelled, LoadDealt};
ghost use Rattle.laws.specs.Single.{SearchesSingle, EntriesSingle};
ghost use Rattle.laws.specs.Sized.{EntriesSized};
ghost use Rattle.laws.specs.Sound.{StepSound, RunSound, OrdersWhole, MovesGranted};

// A valid event keeps a day sound: held is what live orders need, what an account has is what it began
// with and what the lines show coming and going, and each order is accounted for.
pub fn events_keep_a_day_sound()
    ensures one { StepSound }
    ensures many { RunSound }
{}

// On a sound day the lines enter each order's quantity, and it is what they deal and cancel and what is live.
pub fn orders_are_told_whole()
    ensures { OrdersWhole }
{}

// Each order has one entry line, and that comes before its other lines.
pub fn entry_lines_come_first()
    ensures kept { EntriesFirst }
    ensures told { OrdersFirst }
{}

// On a sound day the ledger refuses nothing that a valid event asks of it.
pub fn moves_are_granted()
    ensures { MovesGranted }
{}

// A tape with room takes the lines of orders in range.
pub fn lines_are_taken()
    ensures parts { PartInRange }
    ensures lines { LinesTaken }
{}

// Live orders and lines together: two more by an entry, as many by a cancel, and by a deal two more less the
// orders that it ends.
pub fn loads_are_known()
    ensures entered { LoadEntered }
    ensures cancelled { LoadCancelled }
    ensures dealt { LoadDealt }
{}

// The events of every accepted call are valid, one after the other; a close leaves nothing live.
pub fn accepted_calls_yield_valid_events()
    ensures entries { EntriesValid }
    ensures cancels { CancelsValid }
    ensures payments_in { PaymentsInValid }
    ensures payments_out { PaymentsOutValid }
    ensures closes { ClosesValid }
{}

// A deal that follows from an accepted entry takes all that is live of one of its two orders.
pub fn deals_end_an_order()
    ensures { EntriesStrict }
{}

// Valid events number the deals 1, 2, 3 and so on, each in one buying and one selling line that agree.
pub fn deals_are_paired()
    ensures { DealsPaired }
{}

// After an entry, a cancel and a close the table is the plain day's.
pub fn tables_are_plain()
    ensures entries { EntriesPlain }
    ensures cancels { CancelsPlain }
    ensures closes { ClosesPlain }
{}

// At most one order answers a search, and an accepted entry keeps it so.
pub fn searches_find_one_order()
    ensures single { SearchesSingle }
    ensures kept { EntriesSingle }
{}

// Every deal reaches the least size of its class, and so does what is live of every order.
pub fn deals_reach_the_least_size()
    ensures { EntriesSized }
{}

// Under one number two units deal at most once in a day.
pub fn numbers_are_dealt_once()
    ensures { EntriesAgreed }
{}

// Which events follow from an entry, a cancel and the close, in which sequence and for which reason; numbers of
// firm quotes differ.
pub fn what_follows_is_fixed()
    ensures standing { StandingLaw }
    ensures negotiated { NegotiatedLaw }
    ensures clicks { ClickLaw }
    ensures cancels { CancelLaw }
    ensures closes { CloseLaw }
    ensures quotes { NumbersLaw }
{}
