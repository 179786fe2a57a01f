ghost use Rattle.std.specs.Prelude.{◌≡◌};
ghost use Rattle.market.specs.Classes.{class_number, class_of, price_step, on_step, reaches, trades_at, takes_code};
ghost use Rattle.market.specs.Numbers.{Reads};

use crate::number::BadNumber;
use crate::price::Price;
use crate::quantity::Quantity;

// A class of securities; each has its least size, price step and hours.
#[derive(Clone, Copy)]
pub enum Class {
    Bond,
    QuotedShare,
}

// A bond order has that many sheets, or that amount.
const BOND_LEAST_QUANTITY: u32 = 5_000;

const BOND_LEAST_AMOUNT: u64 = 500_000_000;

const SHARE_LEAST_QUANTITY: u32 = 30_000;

// The codes of quoted shares.
const SHARE_FIRST_CODE: u32 = 430_000;

const SHARE_LAST_CODE: u32 = 439_999;

// Both classes trade in a morning and an afternoon, which end and begin together.
const BOND_OPENS: u32 = 33_300;

const SHARE_OPENS: u32 = 34_200;

const MORNING_ENDS: u32 = 41_400;

const AFTERNOON_BEGINS: u32 = 46_800;

const SHARE_CLOSES: u32 = 54_000;

const BOND_CLOSES: u32 = 55_800;

impl Class {
    pub fn number(self) -> u8
        ensures { result ≡ class_number self }
    {
        match self {
            Class::Bond => 1,
            Class::QuotedShare => 2,
        }
    }

    // Every price is a multiple of it.
    pub fn price_step(self) -> u32
        ensures { result ≡ price_step self }
    {
        match self {
            Class::Bond => 1,
            Class::QuotedShare => 10,
        }
    }

    pub fn on_step(self, price: Price) -> bool
        ensures { result ≡ on_step self price }
    {
        price.get() % self.price_step() == 0
    }

    // Whether an order of that quantity at that price reaches the least size.
    pub fn reaches_least_size(self, quantity: Quantity, price: Price) -> bool
        ensures { result ≡ reaches self quantity price }
    {
        match self {
            Class::Bond => {
                BOND_LEAST_QUANTITY <= quantity.get()
                    || BOND_LEAST_AMOUNT <= quantity.times(price).get()
            }
            Class::QuotedShare => SHARE_LEAST_QUANTITY <= quantity.get(),
        }
    }

    // Whether the class trades at that second of the day.
    pub fn trades_at(self, time: u32) -> bool
        ensures { result ≡ trades_at self time }
    {
        let (opens, closes) = match self {
            Class::Bond => (BOND_OPENS, BOND_CLOSES),
            Class::QuotedShare => (SHARE_OPENS, SHARE_CLOSES),
        };
        (opens <= time && time <= MORNING_ENDS) || (AFTERNOON_BEGINS <= time && time <= closes)
    }

    // Whether a security of the class may have that code.
    pub fn takes_code(self, code: u32) -> bool
        ensures { result ≡ takes_code self code }
    {
        match self {
            Class::Bond => true,
            Class::QuotedShare => SHARE_FIRST_CODE <= code && code <= SHARE_LAST_CODE,
        }
    }
}

impl TryFrom<u32> for Class {
    type Error = BadNumber;

    ghost try_from_gives = { Reads class_of };

    fn try_from(n: u32) -> Result<Class, BadNumber> {
        match n {
            1 => Ok(Class::Bond),
            2 => Ok(Class::QuotedShare),
            _ => Err(BadNumber(u64::from(n))),
        }
    }
}
