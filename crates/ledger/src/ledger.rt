ghost use Rattle.std.specs.Prelude.{◌≡◌};
ghost use Rattle.ledger.specs.Books.{Book, Room, Lawful};
ghost use Rattle.ledger.specs.Questions.{any_money, any_security};
ghost use Rattle.ledger.specs.Moves.{hold_answer, hold_after, release_answer, release_after, pass_answer, pass_after, pay_in_answer, pay_in_after, draw_out_answer, draw_out_after};

use market::Refusal;

// For every account and item: whether the pair is open, what is free and what is held.
// The questions alter nothing. A refused move leaves the book; no move opens or closes a pair. Account and item stay
// two figures: as one they would be put together at each call, only to be taken apart.
pub trait Ledger {
    ghost book: { Self → Book };

    // How many pairs can still be opened: no move uses up any.
    ghost room: { Self → Room };

    fn is_open(&self, account: u64, item: u32) -> bool
        ensures { result ≡ (book self.now account item).is_open };

    // 0 for a pair that is not open, as is `held`.
    fn free(&self, account: u64, item: u32) -> u64
        ensures { result ≡ (book self.now account item).free };

    fn held(&self, account: u64, item: u32) -> u64
        ensures { result ≡ (book self.now account item).held };

    fn any_money_held(&self) -> bool
        ensures { result ≡ any_money (book self.now) };

    fn any_security_held(&self) -> bool
        ensures { result ≡ any_security (book self.now) };

    // From free to held.
    fn hold(&mut self, account: u64, item: u32, n: u64) -> Result<(), Refusal>
        ensures answer { result ≡ hold_answer (book self.old) account item n }
        ensures after { book self.new ≡ hold_after (book self.old) account item n }
        ensures room { room self.new ≡ room self.old };

    // From held to free.
    fn release(&mut self, account: u64, item: u32, n: u64) -> Result<(), Refusal>
        ensures answer { result ≡ release_answer (book self.old) account item n }
        ensures after { book self.new ≡ release_after (book self.old) account item n }
        ensures room { room self.new ≡ room self.old };

    // From the held of one account to the free of another, or its own.
    fn pass(&mut self, from: u64, to: u64, item: u32, n: u64) -> Result<(), Refusal>
        ensures answer { result ≡ pass_answer (book self.old) from to item n }
        ensures after { book self.new ≡ pass_after (book self.old) from to item n }
        ensures room { room self.new ≡ room self.old };

    fn pay_in(&mut self, account: u64, item: u32, n: u64) -> Result<(), Refusal>
        ensures answer { result ≡ pay_in_answer (book self.old) account item n }
        ensures after { book self.new ≡ pay_in_after (book self.old) account item n }
        ensures room { room self.new ≡ room self.old };

    fn draw_out(&mut self, account: u64, item: u32, n: u64) -> Result<(), Refusal>
        ensures answer { result ≡ draw_out_answer (book self.old) account item n }
        ensures after { book self.new ≡ draw_out_after (book self.old) account item n }
        ensures room { room self.new ≡ room self.old };

    ghost lawful: { (x : Self) → Lawful (book x) };
}
