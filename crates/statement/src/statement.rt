ghost use Rattle.std.specs.Prelude.{◌≡◌, IfOk, string_bytes};
ghost use Rattle.statement.specs.Statements.{statement, refusal_row, reconciliation};

use crate::pairs::pairs_of;
use crate::rows::{push_heading, push_lines, push_nets};
use byte_tape::{ByteTape, TapeBytes};
use market::Refusal;
use row_text::{Cell, Word, push_row};
use std::alloc::{AllocError, Global};
use tape::ReadingTape;

// The statement of any reading tape.
pub fn statement_of<T: ReadingTape>(heap: Global, tape: &T) -> Result<String, AllocError>
    ensures { IfOk result (λ s. string_bytes s ≡ statement (T.Tape.contents tape.now)) }
{
    let mut out = String::new(heap);
    push_heading(&mut out, tape)?;
    push_lines(&mut out, tape)?;
    let pairs = pairs_of(heap, tape)?;
    push_nets(&mut out, tape, pairs.as_slice())?;
    Ok(out)
}

fn refusal_text(heap: Global, refusal: Refusal) -> Result<String, AllocError>
    ensures { IfOk result (λ s. string_bytes s ≡ refusal_row refusal) }
{
    let mut out = String::new(heap);
    push_row(
        &mut out,
        Word::Refused,
        &[Cell::Figure(refusal.number() as u64)],
    )?;
    Ok(out)
}

// The statement of the tape that the bytes are, or their refusal.
pub fn reconciled(heap: Global, bytes: Vec<u8>) -> Result<String, AllocError>
    ensures { IfOk result (λ s. string_bytes s ≡ reconciliation bytes.items) }
{
    match TapeBytes::check(bytes) {
        Ok(tape) => statement_of(heap, &ByteTape::open(tape)),
        Err(not) => refusal_text(heap, not.refusal),
    }
}
