ghost use Rattle.std.specs.Prelude.{◌≡◌, is_ok, IfErr, length, nat_lt};
ghost use Rattle.rules.specs.declared.event.Refused.TheVariants.{List};
ghost use Rattle.requests.specs.Lists.{told_entry, is_too_long};
ghost use Rattle.rules.specs.Listing.{has_code, sound_entry, most_securities, good_list, Faulty, security};

use crate::classing::{class_or_bond, fits_class};
use market::{Figure, Price};
use rules::{ListEntry, Refused, Security};

// A list has at most that many securities.
pub const MOST_SECURITIES: usize = 64;

fn has_code(code: u32, before: &[ListEntry]) -> bool
    ensures { result ≡ has_code code before.now }
{
    before.iter().any(|e| e.code == code)
}

// Whether the entry is without fault behind those before it.
fn is_sound(before: &[ListEntry], e: &ListEntry) -> bool
    ensures { result ≡ sound_entry before.now e.now }
{
    Figure::SecurityCode.admits(e.code as u64)
        && !has_code(e.code, before)
        && fits_class(e.class, e.code)
        && Figure::Price.admits(e.low as u64)
        && Figure::Price.admits(e.high as u64)
        && e.low <= e.high
}

// What is wrong with a list: it is too long, or an entry is faulty, the first that is, counted from 0.
#[derive(Clone, Copy)]
pub enum FaultyList {
    TooLong,
    Entry(usize),
}

// The floor tells of a list that is too long as of the entry behind its longest.
impl From<FaultyList> for Refused {
    ghost from_gives = { λ e r. r ≡ List (told_entry e) };

    fn from(e: FaultyList) -> Refused {
        match e {
            FaultyList::TooLong => Refused::List(MOST_SECURITIES),
            FaultyList::Entry(k) => Refused::List(k),
        }
    }
}

// Refuses a list with what is wrong with it.
pub fn check_list(list: &[ListEntry]) -> Result<(), FaultyList>
    ensures value { is_ok result ≡ good_list list.now }
    ensures fault { IfErr result (λ e. Faulty list.now (told_entry e)) }
    ensures too_long { IfErr result (λ e. is_too_long e ≡ nat_lt most_securities (length list.now)) }
{
    if list.len() > MOST_SECURITIES {
        return Err(FaultyList::TooLong);
    }
    // A loop: each entry is judged beside those before it.
    for (k, e) in list.iter().enumerate() {
        if !is_sound(&list[0..k], e) {
            return Err(FaultyList::Entry(k));
        }
    }
    Ok(())
}

// The security that an entry without fault gives; both types are of `rules`, so no `From` can stand here.
pub fn security_of(e: &ListEntry) -> Security
    ensures { result ≡ security e.now }
{
    Security {
        code: e.code,
        class: class_or_bond(e.class),
        low: Price::new(e.low),
        high: Price::new(e.high),
    }
}
