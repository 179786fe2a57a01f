// A sheet run over two houses and a tape in bytes, and the bytes of that tape.
#![tactic(auto)]

ghost use Rattle.std.specs.Prelude.{IfOk};
ghost use Rattle.sheet_tape.specs.Taping.{begun, Taped};

use byte_tape::{BlankBytes, ByteTape};
use line_ledger::{LineLedger, PairRecord};
use practice::run_sheet;
use std::alloc::{AllocError, Global};
use two_house::TwoHouse;

const LINE_BYTES: usize = 48;

const TRAILER_BYTES: usize = 16;

// Runs a sheet over a bank and a depository of so many pairs each and a tape of so many lines, and hands out the
// tape's bytes: the lines and the trailer of the last day opened.
pub fn tape_of(heap: Global, sheet: &[u8], pairs: usize, lines: u32) -> Result<Vec<u8>, AllocError>
    ensures { IfOk result (λ v. Taped (begun pairs lines) sheet.now v.items) }
{
    let bank = LineLedger::new(vec![in heap; PairRecord::blank(); pairs]?);
    let depository = LineLedger::new(vec![in heap; PairRecord::blank(); pairs]?);
    let buffer = vec![in heap; 0u8; lines as usize * LINE_BYTES + TRAILER_BYTES]?;
    let tape = match BlankBytes::check(buffer) {
        Ok(blank) => ByteTape::new(blank),
        Err(_) => unreachable(),
    };
    let practice = run_sheet(heap, TwoHouse::new(bank, depository), tape, sheet)?;
    Vec::from_slice(heap, practice.floor.tape().bytes())
}
