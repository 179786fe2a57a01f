// Reads the answers to a sheet from standard input and prints them with their meaning beside them.
#![tactic(auto)]

use explaining::explained;
use std::io;
use std::io::{Read, Write};

fn main(rt: HostRuntime) -> io::Result<()> {
    let mut text = Vec::new(rt.alloc());
    rt.stdin().read_to_end(&mut text)?;
    let rows = explained(rt.alloc(), text.as_slice())?;
    rt.stdout().write_all(rows.as_slice())
}
