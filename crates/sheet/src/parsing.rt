ghost use Rattle.std.specs.Prelude.{◌≡◌, take};
ghost use Rattle.sheet.specs.Told.{says};
ghost use Rattle.sheet.specs.Parsing.{parsed, closed};
ghost use Rattle.sheet.specs.Codes.{figures_of};
ghost use Rattle.sheet.specs.Written.{Written, Only};

use crate::building::line_of;
use crate::codes::{Form, split_code};
use crate::fault::Fault;
use crate::fields::{FIRST_FIELD, Figures, read_figures};
use crate::line::Line;
use market::Refusal;

// The line, once its figures are read: only a contact may follow them.
fn close_line<'a>(form: Form, fields: &'a [u8], found: Figures<'a>) -> Result<Line<'a>, Fault>
    ensures { says result ≡ closed form fields.now (take (figures_of form) found.entry.numbers) found.entry.rest.now }
{
    let Figures { numbers, rest } = found;
    match rest {
        [] => Ok(line_of(form, numbers, fields, rest)),
        [_, contact @ ..] if form.takes_contact() => Ok(line_of(form, numbers, fields, contact)),
        _ => Err(Fault {
            refusal: Refusal::FieldCount,
            field: form.figures() + FIRST_FIELD,
        }),
    }
}

// What one line of a sheet says, or why it is refused.
#[tactic(auto, using(crate::proofs::Closing::nothing, crate::proofs::Writing::told_written, crate::proofs::Rereading::told_only))]
pub fn read_line(line: &[u8]) -> Result<Line<'_>, Fault>
    ensures answer { says result ≡ parsed line.now }
    ensures written { Written line.now (says result) }
    ensures only { Only line.now (says result) }
{
    if line.is_empty() {
        return Err(Refusal::EmptyLine.into());
    }
    let (form, fields) = split_code(line).ok_or(Refusal::UnknownCode)?;
    let found = read_figures(fields, form.figures())?;
    close_line(form, fields, found)
}
