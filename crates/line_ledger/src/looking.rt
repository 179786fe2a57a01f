ghost use Rattle.std.specs.Prelude.{◌≡◌, ◌≤◌, MatchResult};
ghost use Rattle.ledger.specs.Books.{nothing, limit, total};
ghost use Rattle.line_ledger.specs.Rows.{Place};
ghost use Rattle.line_ledger.specs.Lines.{line_book};

use crate::line::LineLedger;
use crate::record::PairRecord;
use market::Refusal;

impl LineLedger {
    // Where the pair's record stands.
    pub(crate) fn place(&self, account: u64, item: u32) -> Result<usize, Refusal>
        ensures { MatchResult result (Place self.now.rows.items account item) (λ e. (e ≡ Refusal.PairNotOpen) × (line_book self.now account item ≡ nothing)) }
    {
        self.rows
            .iter()
            .position(|p| p.account == account && p.item == item)
            .ok_or(Refusal::PairNotOpen)
    }

    // The pair's record: one with nothing if the pair is not open.
    pub(crate) fn record_of(&self, account: u64, item: u32) -> PairRecord
        ensures free { result.free ≡ (line_book self.now account item).free }
        ensures held { result.held ≡ (line_book self.now account item).held }
    {
        match self.place(account, item) {
            Ok(k) => self.rows[k],
            Err(_) => PairRecord::blank(),
        }
    }

    // What all accounts have of the item, free and held. A loop: its invariant says what is summed so far, and by that
    // no addition passes the limit.
    #[tactic(auto, using(crate::proofs::Summing::sums), unfolding(ledger::specs::Books::limit, ledger::specs::Laws::of))]
    pub(crate) fn total_of(&self, item: u32) -> u64
        ensures sum { result ≡ total (line_book self.now) item }
        ensures within { result ≤ limit }
    {
        let mut sum: u64 = 0;
        for p in &self.rows {
            if p.item == item {
                sum += p.free + p.held;
            }
        }
        sum
    }
}
