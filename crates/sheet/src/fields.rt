ghost use Rattle.std.specs.Prelude.{◌≡◌, ◌≤◌, []};
ghost use Rattle.sheet.specs.Fields.{read};
ghost use Rattle.sheet.specs.Gathered.{gathered};

use crate::fault::Fault;
use market::Refusal;
use sheet_text::{cut, figure};

const BLANK: u8 = b' ';

// The code of a line is its field 1.
pub(crate) const FIRST_FIELD: usize = 2;

// No line has more figures; an array of as many takes no memory.
pub(crate) const MOST_FIGURES: usize = 9;

// The figures of a line from its first on, and the text behind them.
#[derive(Drop)]
pub(crate) struct Figures<'a> {
    pub(crate) numbers: [u64; MOST_FIGURES],
    pub(crate) rest: &'a [u8],
}

// Reads that many fields, each after one blank.
pub(crate) fn read_figures(fields: &[u8], wanted: usize) -> Result<Figures<'_>, Fault>
    requires { wanted ≤ 9 }
    ensures { gathered wanted result ≡ read [] wanted 2 fields.now }
{
    let mut numbers = [0; MOST_FIGURES];
    let mut rest = fields;
    // By number: a refusal names its field.
    for i in 0..wanted {
        let field = i + FIRST_FIELD;
        let [_, text @ ..] = rest else {
            return Err(Fault {
                refusal: Refusal::FieldCount,
                field,
            });
        };
        let (word, behind) = cut(text, BLANK);
        numbers[i] = figure(word).ok_or(Fault {
            refusal: Refusal::NotDigits,
            field,
        })?;
        rest = behind;
    }
    Ok(Figures { numbers, rest })
}
