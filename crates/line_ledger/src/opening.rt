ghost use Rattle.std.specs.Prelude.{◌≡◌, vec_len};
ghost use Rattle.ledger.specs.Books.{in_range};
ghost use Rattle.ledger.specs.Opening.{open_answer, open_after, SameFigures};
ghost use Rattle.line_ledger.specs.Opening.{no_pairs, room_of, room_after};
ghost use Rattle.line_ledger.specs.Lines.{line_book, line_room};

use crate::line::LineLedger;
use crate::record::PairRecord;
use ledger::Ledger;
use market::{Figure, Refusal};

// However long the table is, no more pairs are opened.
const MOST_PAIRS: usize = 1024;

#[tactic(auto, unfolding(ledger::specs::Books::in_range))]
fn pair_in_range(account: u64, item: u32) -> bool
    ensures { result ≡ in_range account item }
{
    Figure::Account.admits(account) && Figure::Item.admits(item as u64)
}

impl LineLedger {
    // No pair is open yet. The table's places are for the pairs to come, whatever they hold.
    pub fn new(mut places: Vec<PairRecord>) -> LineLedger
        ensures book { line_book result ≡ no_pairs }
        ensures room { line_room result ≡ room_of (vec_len places) 0 }
    {
        let most = places.len().min(MOST_PAIRS);
        places.clear();
        LineLedger { rows: places, most }
    }

    // How many pairs can still be opened.
    pub fn room(&self) -> usize
        ensures { result ≡ line_room self.now }
    {
        self.most - self.rows.len()
    }

    // Opens the pair with nothing free or held. No figure of any pair changes.
    #[tactic(auto, using(crate::proofs::Opened::opens), unfolding(ledger::specs::Opening::open_answer, ledger::specs::Opening::open_after))]
    pub fn open_pair(&mut self, account: u64, item: u32) -> Result<(), Refusal>
        ensures answer { result ≡ open_answer (line_book self.old) (line_room self.old) account item }
        ensures after { line_book self.new ≡ open_after (line_book self.old) (line_room self.old) account item }
        ensures room { line_room self.new ≡ room_after result (line_room self.old) }
        ensures figures { SameFigures (line_book self.old) (line_book self.new) }
    {
        if !pair_in_range(account, item) {
            return Err(Refusal::OutOfRange);
        }
        if self.is_open(account, item) {
            return Err(Refusal::PairOpen);
        }
        if self.room() == 0 {
            return Err(Refusal::NoLedgerLine);
        }
        self.rows.push_reserved(PairRecord {
            account,
            item,
            free: 0,
            held: 0,
        });
        Ok(())
    }
}
