ghost use Rattle.std.specs.Prelude.{◌≡◌};
ghost use Rattle.two_house.specs.Houses.{both, both_room};

use ledger::Ledger;

#[derive(Drop)]
pub struct TwoHouse<B, D> {
    pub(crate) bank: B,
    pub(crate) depository: D,
}

impl<B: Ledger, D: Ledger> TwoHouse<B, D> {
    pub fn new(bank: B, depository: D) -> TwoHouse<B, D>
        ensures parts { result ≡ record { bank = bank; depository = depository } }
        ensures book { both (B.Ledger.book result.bank) (D.Ledger.book result.depository) ≡ both (B.Ledger.book bank) (D.Ledger.book depository) }
        ensures room { both_room (B.Ledger.room result.bank) (D.Ledger.room result.depository) ≡ both_room (B.Ledger.room bank) (D.Ledger.room depository) }
    {
        TwoHouse { bank, depository }
    }
}
