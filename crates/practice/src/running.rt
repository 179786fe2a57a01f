ghost use Rattle.std.specs.Prelude.{[], IfOk};
ghost use Rattle.sheet.specs.Handing.{left, opening};
ghost use Rattle.floor.specs.View.{whole};
ghost use Rattle.whole_runs.specs.Law.{new_desk};
ghost use Rattle.practice.specs.Working.{told, Worked, Answered, Practised};

use crate::answering::answer_line;
use crate::gathered::Gathered;
use answers::Answer;
use floor::Floor;
use ledger::{Ledger, PairLedger};
use sheet::{Fault, Reader};
use std::alloc::{AllocError, Global};
use tape::Tape;

// A sheet that was run: what each line was answered, or why the whole sheet is refused, and the floor behind it.
#[derive(Drop)]
pub struct Practice<L: Ledger, T: Tape> {
    pub floor: Floor<L, T>,
    pub answers: Result<Vec<Answer>, Fault>,
}

// Answers every line that the reader has to hand out.
fn answer_all<L: PairLedger, T: Tape>(
    heap: Global,
    floor: &mut Floor<L, T>,
    reader: Reader<'_>,
) -> Result<Vec<Answer>, AllocError>
    ensures { IfOk result (λ v. Worked L.PairLedger.shares (whole floor.old) [] (told (left reader.entry)) v.items (whole floor.new)) }
{
    let mut gathered = Gathered::new(heap)?;
    let mut answers = Vec::new(heap);
    for numbered in reader {
        answers.push(answer_line(floor, &mut gathered, numbered.line))?;
    }
    Ok(answers)
}

// Makes a floor over the ledger and the tape, and answers every line of the sheet.
fn answer_sheet<L: PairLedger + Drop, T: Tape + Drop>(
    heap: Global,
    ledger: L,
    tape: T,
    sheet: &[u8],
) -> Result<Practice<L, T>, AllocError>
    ensures { IfOk result (λ p. Answered L.PairLedger.shares (new_desk (L.Ledger.book ledger) (L.Ledger.room ledger) (T.Tape.contents tape)) (opening sheet.now) p.answers (whole p.floor)) }
{
    let mut floor = Floor::new(heap, ledger, tape)?;
    let answers = match Reader::new(sheet) {
        Ok(reader) => Ok(answer_all(heap, &mut floor, reader)?),
        Err(fault) => Err(fault),
    };
    Ok(Practice { floor, answers })
}

// Runs a sheet on a new floor over the ledger and the tape. The law of whole runs holds of all of it: see `Practised`.
pub fn run_sheet<L: PairLedger + Drop, T: Tape + Drop>(
    heap: Global,
    ledger: L,
    tape: T,
    sheet: &[u8],
) -> Result<Practice<L, T>, AllocError>
    ensures { IfOk result (λ p. Practised L.PairLedger.shares (new_desk (L.Ledger.book ledger) (L.Ledger.room ledger) (T.Tape.contents tape)) (opening sheet.now) p.answers (whole p.floor)) }
{
    answer_sheet(heap, ledger, tape, sheet)
}
