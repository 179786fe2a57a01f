// Tests of the sheet reader, and a loop over it.
#![tactic(auto)]

ghost use Rattle.std.specs.Prelude.{◌≡◌};
ghost use Rattle.sheet_tests.specs.Counts.{line_count};

use sheet::{Fault, Reader};

#[cfg(test)]
mod tests;

// How many lines the reader hands out of a sheet.
pub fn count_lines(sheet: &[u8]) -> Result<usize, Fault>
    ensures { result ≡ line_count sheet.now }
{
    Ok(Reader::new(sheet)?.count())
}
