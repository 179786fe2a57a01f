// Reads a tape in bytes from standard input and prints its statement.
#![tactic(auto)]

use statement::reconciled;
use std::io;
use std::io::{Read, Write};

fn main(rt: HostRuntime) -> io::Result<()> {
    let mut bytes = Vec::new(rt.alloc());
    rt.stdin().read_to_end(&mut bytes)?;
    let text = reconciled(rt.alloc(), bytes)?;
    rt.stdout().write_all(text.as_bytes())
}
