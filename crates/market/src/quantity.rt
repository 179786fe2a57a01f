ghost use Rattle.std.specs.Prelude.{◌≡◌};
ghost use Rattle.market.specs.Numbers.{Reads};
ghost use Rattle.market.specs.Figures.{quantity, quantity_of, times};

use crate::amount::Amount;
use crate::number::BadNumber;
use crate::price::Price;
use crate::ranges::Figure;

// Sheets of a bond, or shares. A type apart from `Price`, whose code it repeats: a const parameter could tell the two
// apart only by a number.
#[derive(Clone, Copy, PartialEq, Eq)]
pub struct Quantity {
    number: u32,
}

impl Quantity {
    pub fn new(number: u32) -> Quantity
        ensures { result ≡ quantity number }
    {
        Quantity { number }
    }

    pub fn get(self) -> u32
        ensures { result ≡ self.number }
    {
        self.number
    }

    // What this quantity costs at a price.
    pub fn times(self, price: Price) -> Amount
        ensures { result ≡ times self price }
    {
        Amount {
            number: self.get() as u64 * price.get() as u64,
        }
    }
}

// The quantity of a number, if it is in range.
impl TryFrom<u64> for Quantity {
    type Error = BadNumber;

    ghost try_from_gives = { Reads quantity_of };

    fn try_from(number: u64) -> Result<Quantity, BadNumber> {
        if Figure::Quantity.admits(number) {
            Ok(Quantity {
                number: number as u32,
            })
        } else {
            Err(BadNumber(number))
        }
    }
}
