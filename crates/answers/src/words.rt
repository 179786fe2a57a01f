ghost use Rattle.std.specs.Prelude.{◌≡◌, Some};
ghost use Rattle.answers.specs.Rows.{layer_text, notice_of_refusal};

use crate::answer::NotDone;
use market::Refusal;
use std::fmt;

// Who refuses.
#[derive(Clone, Copy)]
pub(crate) enum Layer {
    Sheet,
    Floor,
    Ledger,
}

impl fmt::Display for Layer {
    ghost output = { λ layer. Some (layer_text layer) };

    fn fmt<W: fmt::Write>(&self, f: &mut fmt::Formatter<W>) -> fmt::Result {
        f.write_str(match self {
            Layer::Sheet => "sheet",
            Layer::Floor => "floor",
            Layer::Ledger => "ledger",
        })
    }
}

// What a row says of a refusal: who refuses, why, and at what.
#[derive(Clone, Copy)]
pub(crate) struct Notice {
    pub(crate) layer: Layer,
    pub(crate) refusal: Refusal,
    pub(crate) figure: u64,
}

// A sheet's refusal points at a field, a faulty list at its entry, the ledger's refusal at an item.
impl From<NotDone> for Notice {
    ghost from_gives = { λ not_done notice. notice ≡ notice_of_refusal not_done };

    fn from(not_done: NotDone) -> Notice {
        let (layer, refusal, figure) = match not_done {
            NotDone::Sheet { refusal, field } => (Layer::Sheet, refusal, field as u64),
            NotDone::Floor(refusal) => (Layer::Floor, refusal, 0),
            NotDone::List(entry) => (Layer::Floor, Refusal::BadList, entry as u64),
            NotDone::Ledger(refusal, item) => (Layer::Ledger, refusal, u64::from(item)),
            NotDone::Pair { refusal, item } => (Layer::Ledger, refusal, item),
        };
        Notice {
            layer,
            refusal,
            figure,
        }
    }
}
