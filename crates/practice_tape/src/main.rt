// Reads a sheet from standard input, runs it over a new floor, and writes the bytes of its tape. It reads as
// practice_floor does, in five lines of its own.
#![tactic(auto)]

use sheet_tape::tape_of;
use std::io;
use std::io::{Read, Write};

// How many pairs each of the two houses can open.
const PAIRS: usize = 256;

// How many lines the tape has room for.
const LINES: u32 = 2_048;

// One byte more than a sheet may have shows that it has too many.
const MOST_READ: u64 = 65_537;

fn main(rt: HostRuntime) -> io::Result<()> {
    let mut sheet = Vec::new(rt.alloc());
    rt.stdin().take(MOST_READ).read_to_end(&mut sheet)?;
    let bytes = tape_of(rt.alloc(), sheet.as_slice(), PAIRS, LINES)?;
    rt.stdout().write_all(bytes.as_slice())
}
