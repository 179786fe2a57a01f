ghost use Rattle.std.specs.Prelude.{◌≡◌};
ghost use Rattle.sheet.specs.Faults.{fault};

use market::Refusal;

// Why the sheet refuses a line, and at which field. The code is field 1; 0 stands for no field, and is what a row
// prints.
#[derive(Clone, Copy)]
pub struct Fault {
    pub refusal: Refusal,
    pub field: usize,
}

// At no field.
impl From<Refusal> for Fault {
    ghost from_gives = { λ refusal f. f ≡ fault refusal 0 };

    fn from(refusal: Refusal) -> Fault {
        Fault { refusal, field: 0 }
    }
}
