ghost use Rattle.std.specs.Prelude.{◌≡◌};
ghost use Rattle.market.specs.Numbers.{Reads};
ghost use Rattle.market.specs.Figures.{price, price_of};

use crate::number::BadNumber;
use crate::ranges::Figure;

// Thousandths of a yuan for one sheet or share.
#[derive(Clone, Copy, PartialEq, Eq, PartialOrd, Ord)]
pub struct Price {
    number: u32,
}

impl Price {
    pub fn new(number: u32) -> Price
        ensures { result ≡ price number }
    {
        Price { number }
    }

    pub fn get(self) -> u32
        ensures { result ≡ self.number }
    {
        self.number
    }
}

// The price of a number, if it is in range.
impl TryFrom<u64> for Price {
    type Error = BadNumber;

    ghost try_from_gives = { Reads price_of };

    fn try_from(number: u64) -> Result<Price, BadNumber> {
        if Figure::Price.admits(number) {
            Ok(Price {
                number: number as u32,
            })
        } else {
            Err(BadNumber(number))
        }
    }
}
