ghost use Rattle.std.specs.Prelude.{◌≤◌, vec_len, vec_capacity};
ghost use Rattle.line_ledger.specs.Rows.{Kept};

use crate::record::PairRecord;

// The rows are one record for each open pair. At most `most` pairs can be open, and there is memory for as many.
// They are a Vec and no map: a map would take memory at an opening, and an opening must not run out of it.
#[derive(Drop)]
pub struct LineLedger {
    pub(crate) rows: Vec<PairRecord>,
    pub(crate) most: usize,
    ghost within: { vec_len rows ≤ most },
    ghost reserved: { most ≤ vec_capacity rows },
    ghost few: { most ≤ 1024 },
    ghost kept: { Kept rows.items },
}
