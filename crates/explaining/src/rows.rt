ghost use Rattle.std.specs.Prelude.{◌≡◌, ◌++◌, IfOk, Some, OnOk};
ghost use Rattle.std.specs.Option.{option_map};
ghost use Rattle.explaining.specs.Notes.{in_brackets, explained_row, explained};

use crate::notes::note_of;
use sheet_text::first_line;
use std::alloc::{AllocError, Global};

fn push_words(out: &mut Vec<u8>, words: &str) -> Result<(), AllocError>
    ensures { OnOk result (out.new.items ≡ out.old.items ++ in_brackets (Some words.now)) }
{
    out.extend_from_slice(b" (")?;
    out.extend_from_slice(words.as_bytes())?;
    out.extend_from_slice(b")")
}

fn push_note(out: &mut Vec<u8>, note: Option<&'static str>) -> Result<(), AllocError>
    ensures { OnOk result (out.new.items ≡ out.old.items ++ in_brackets (option_map (λ p. p.now) note.entry)) }
{
    if let Some(words) = note {
        push_words(out, words)?;
    }
    Ok(())
}

fn push_row(out: &mut Vec<u8>, row: &[u8]) -> Result<(), AllocError>
    ensures { OnOk result (out.new.items ≡ out.old.items ++ explained_row row.now) }
{
    out.extend_from_slice(row)?;
    push_note(out, note_of(row))?;
    out.extend_from_slice(b"\n")
}

// Every row as it stands, with its meaning behind it; a row that is no answer stays as it is.
pub fn explained(heap: Global, text: &[u8]) -> Result<Vec<u8>, AllocError>
    ensures { IfOk result (λ v. v.items ≡ explained text.now) }
{
    let mut out = Vec::new(heap);
    let mut rest = text;
    // By what is left of the text: that is what each row is cut from.
    while let Some((row, behind)) = first_line(rest) {
        push_row(&mut out, row)?;
        rest = behind;
    }
    Ok(out)
}
