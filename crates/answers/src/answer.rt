ghost use Rattle.std.specs.Prelude.{◌≡◌};
ghost use Rattle.answers.specs.Answers.{sheet_refused, call_refused};

use market::Refusal;
use rules::Refused;
use sheet::Fault;

// Who refused a line of a sheet, why, and at what. What a fault and a floor's refusal hold lies here side by side: an
// enum within an enum would take a word more in each answer.
#[derive(Clone, Copy)]
pub enum NotDone {
    // The sheet itself, at a field.
    Sheet { refusal: Refusal, field: usize },
    // A call of the floor: the floor by a rule of its own.
    Floor(Refusal),
    // The same, for an entry of an opening's list.
    List(usize),
    // The same: the ledger, for an item.
    Ledger(Refusal, u32),
    // The ledger, which was to open a pair of this item.
    Pair { refusal: Refusal, item: u64 },
}

// What a line of a sheet is answered: how many lines it wrote to the tape, or who refused it.
pub type Answer = Result<usize, NotDone>;

impl From<Fault> for NotDone {
    ghost from_gives = { λ fault e. e ≡ sheet_refused fault };

    fn from(fault: Fault) -> NotDone {
        NotDone::Sheet {
            refusal: fault.refusal,
            field: fault.field,
        }
    }
}

impl From<Refused> for NotDone {
    ghost from_gives = { λ refused e. e ≡ call_refused refused };

    fn from(refused: Refused) -> NotDone {
        match refused {
            Refused::Floor(refusal) => NotDone::Floor(refusal),
            Refused::List(entry) => NotDone::List(entry),
            Refused::Ledger(refusal, item) => NotDone::Ledger(refusal, item),
        }
    }
}
