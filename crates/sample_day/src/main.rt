// Writes the tape of a small day to standard output.
#![tactic(auto)]

mod day;

use byte_tape::{BlankBytes, ByteTape};
use day::{DATE, lines};
use market::Refusal;
use std::io;
use std::io::Write;
use tape::{Line, Tape};

fn record<T: Tape>(tape: &mut T, date: u32, lines: &[Line]) -> Result<(), Refusal> {
    tape.begin(date)?;
    for line in lines {
        tape.append(*line)?;
    }
    Ok(())
}

fn main(rt: HostRuntime) -> io::Result<()> {
    let buffer = vec![in rt.alloc(); 0u8; 1_024]?;
    match BlankBytes::check(buffer) {
        Ok(blank) => {
            let mut tape = ByteTape::new(blank);
            match record(&mut tape, DATE, &lines()) {
                Ok(_) => rt.stdout().write_all(tape.bytes()),
                Err(refusal) => println!(rt; "refused {}", refusal.number()),
            }
        }
        Err(not) => println!(rt; "refused {}", not.refusal.number()),
    }
}
