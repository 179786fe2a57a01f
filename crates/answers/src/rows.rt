ghost use Rattle.std.specs.Prelude.{◌≡◌, ◌++◌, IfOk, Some, string_bytes, OnOk};
ghost use Rattle.answers.specs.Rows.{row_text, rows_text, printed};

use crate::answer::{Answer, NotDone};
use crate::words::Notice;
use sheet::Fault;
use std::alloc::{AllocError, Global};
use std::fmt;

// The line's number, and what it was answered.
#[derive(Clone, Copy)]
struct Row {
    place: usize,
    answer: Answer,
}

impl fmt::Display for Row {
    ghost output = { λ row. Some (row_text row.place row.answer) };

    fn fmt<W: fmt::Write>(&self, f: &mut fmt::Formatter<W>) -> fmt::Result {
        let place = self.place;
        match self.answer {
            Ok(lines) => writeln!(f, "{place} ok {lines}"),
            Err(not_done) => {
                let Notice {
                    layer,
                    refusal,
                    figure,
                } = Notice::from(not_done);
                let number = refusal.number();
                writeln!(f, "{place} {layer} {number} {figure}")
            }
        }
    }
}

fn push_rows(out: &mut String, answers: &[Answer]) -> Result<(), AllocError>
    ensures { OnOk result (string_bytes out.new ≡ string_bytes out.old ++ rows_text 1 answers.now) }
{
    for (k, answer) in answers.iter().enumerate() {
        let row = Row {
            place: k + 1,
            answer: *answer,
        };
        write!(out, "{row}")?;
    }
    Ok(())
}

// The rows of all answers, numbered from 1; of a sheet that is refused whole, the one row numbered 0.
pub fn text_of(heap: Global, answers: &Result<Vec<Answer>, Fault>) -> Result<String, AllocError>
    ensures { IfOk result (λ s. string_bytes s ≡ printed answers.now) }
{
    match answers {
        Ok(each) => {
            let mut out = String::new(heap);
            push_rows(&mut out, each.as_slice())?;
            Ok(out)
        }
        Err(fault) => {
            let row = Row {
                place: 0,
                answer: Err(NotDone::from(*fault)),
            };
            row.to_string(heap)
        }
    }
}
