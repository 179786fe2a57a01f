// The sheet program as a function: bytes of a sheet to the text of its answers.
#![tactic(auto)]

ghost use Rattle.std.specs.Prelude.{IfOk, string_bytes};
ghost use Rattle.sheet_run.specs.Printing.{begun, Printed};

use answers::text_of;
use line_ledger::{LineLedger, PairRecord};
use practice::run_sheet;
use std::alloc::{AllocError, Global};
use tape::{Line, PaymentLine, RecordTape};

// What a place of the tape holds before a line is written to it does not matter.
const BLANK_LINE: Line = Line::PaidIn(PaymentLine {
    account: 0,
    item: 0,
    sum: 0,
    time: 0,
});

// Runs a sheet over a ledger of so many pairs and a tape of so many lines, and says what each line was answered.
pub fn answers_to(
    heap: Global,
    sheet: &[u8],
    pairs: usize,
    lines: usize,
) -> Result<String, AllocError>
    ensures { IfOk result (λ s. Printed (begun pairs lines) sheet.now (string_bytes s)) }
{
    let ledger = LineLedger::new(vec![in heap; PairRecord::blank(); pairs]?);
    let tape = RecordTape::new(vec![in heap; BLANK_LINE; lines]?);
    let practice = run_sheet(heap, ledger, tape, sheet)?;
    text_of(heap, &practice.answers)
}
