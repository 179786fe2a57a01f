// Runs the trial sheets of its folder, each over a new floor, and prints what every line was answered.
#![tactic(auto)]

use sheet_run::answers_to;
use std::io::Write;
use std::{fs, io};

// A sheet, and how many pairs and tape lines it is run with.
#[derive(Clone, Copy)]
struct Trial {
    sheet: &'static str,
    pairs: usize,
    lines: usize,
}

fn sized(sheet: &'static str, pairs: usize, lines: usize) -> Trial {
    Trial {
        sheet,
        pairs,
        lines,
    }
}

fn trials() -> [Trial; 14] {
    [
        sized("sizes.sheet", 256, 2_048),
        sized("clicks.sheet", 256, 2_048),
        sized("one_unit.sheet", 256, 2_048),
        sized("set_up.sheet", 2, 2_048),
        sized("many_securities.sheet", 256, 2_048),
        sized("three_lines_left.sheet", 256, 4),
        sized("two_lines_left.sheet", 256, 4),
        sized("guide_day.sheet", 256, 2_048),
        sized("mixed_day.sheet", 256, 2_048),
        sized("dense_days.sheet", 256, 2_048),
        sized("full_table.sheet", 256, 2_048),
        sized("full_tape.sheet", 256, 2_048),
        sized("full_total.sheet", 256, 2_048),
        sized("wild_lines.sheet", 256, 2_048),
    ]
}

fn run(rt: &HostRuntime, trial: Trial) -> io::Result<()> {
    let sheet = fs::read(rt, trial.sheet)?;
    let text = answers_to(rt.alloc(), sheet.as_slice(), trial.pairs, trial.lines)?;
    println!(rt; "{}", trial.sheet)?;
    rt.stdout().write_all(text.as_bytes())
}

fn main(rt: HostRuntime) -> io::Result<()> {
    for trial in trials() {
        run(&rt, trial)?;
    }
    Ok(())
}
