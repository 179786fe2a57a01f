ghost use Rattle.std.specs.Prelude.{◌≡◌};
ghost use Rattle.market.specs.Classes.{class_of};
ghost use Rattle.rules.specs.Listing.{fits_class, class_or_bond};

use market::Class;

// Whether the class of that number is known, and the code one of its own.
pub(crate) fn fits_class(number: u32, code: u32) -> bool
    ensures { result ≡ fits_class (class_of number) code }
{
    Class::try_from(number).is_ok_and(|class| class.takes_code(code))
}

pub(crate) fn class_or_bond(number: u32) -> Class
    ensures { result ≡ class_or_bond (class_of number) }
{
    Class::try_from(number).unwrap_or(Class::Bond)
}
