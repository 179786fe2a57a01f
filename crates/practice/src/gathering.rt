ghost use Rattle.std.specs.Prelude.{◌≡◌, [], IfOk};
ghost use Rattle.sheet.specs.Faults.{fault};
ghost use Rattle.std.specs.Option.{ok_or};
ghost use Rattle.market.specs.declared.refusal.Refusal.TheVariants.{OutOfRange};
ghost use Rattle.practice.specs.Gathering.{small, writable, list_entry, with_entry, gather_answer, gather_after};

use crate::gathered::Gathered;
use answers::Answer;
use market::Refusal;
use requests::MOST_SECURITIES;
use rules::ListEntry;
use sheet::Fault;
use std::alloc::{AllocError, Global};

// No figure of a security may be larger.
const MOST_FIGURE: u64 = 99_999_999;

// A figure of a security, if it is not too large.
fn small(figure: u64) -> Result<u32, Fault>
    ensures { result ≡ small figure }
{
    if figure > MOST_FIGURE {
        return Err(Refusal::OutOfRange.into());
    }
    Ok(figure as u32)
}

fn entry_of(code: u64, class: u64, low: u64, high: u64) -> Result<ListEntry, Fault>
    ensures { result ≡ ok_or (with_entry (writable code class low high) (list_entry code class low high)) (fault OutOfRange 0) }
{
    Ok(ListEntry {
        code: small(code)?,
        class: small(class)?,
        low: small(low)?,
        high: small(high)?,
    })
}

impl Gathered {
    pub(crate) fn new(heap: Global) -> Result<Gathered, AllocError>
        ensures { IfOk result (λ g. g.entries.items ≡ []) }
    {
        let entries = Vec::with_capacity(heap, MOST_SECURITIES)?;
        Ok(Gathered { entries })
    }

    pub(crate) fn gather(&mut self, code: u64, class: u64, low: u64, high: u64) -> Answer
        ensures answer { result ≡ gather_answer self.old.entries.items code class low high }
        ensures after { self.new.entries.items ≡ gather_after self.old.entries.items code class low high }
    {
        let entry = entry_of(code, class, low, high)?;
        if self.entries.len() >= MOST_SECURITIES {
            return Err(Fault::from(Refusal::BadList).into());
        }
        self.entries.push_reserved(entry);
        Ok(0)
    }
}
