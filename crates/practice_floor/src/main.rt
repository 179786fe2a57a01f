// Reads a sheet from standard input, runs it over a new floor, and prints what each line was answered.
#![tactic(auto)]

use sheet_run::answers_to;
use std::io;
use std::io::{Read, Write};

// How many pairs the ledger can open.
const PAIRS: usize = 256;

// How many lines the tape has room for.
const LINES: usize = 2_048;

// One byte more than a sheet may have shows that it has too many.
const MOST_READ: u64 = 65_537;

fn main(rt: HostRuntime) -> io::Result<()> {
    let mut sheet = Vec::new(rt.alloc());
    rt.stdin().take(MOST_READ).read_to_end(&mut sheet)?;
    let text = answers_to(rt.alloc(), sheet.as_slice(), PAIRS, LINES)?;
    rt.stdout().write_all(text.as_bytes())
}
