ghost use Rattle.std.specs.Prelude.{◌≡◌, ◌||◌, is_some};
ghost use Rattle.rules.specs.Orders.{first_place};
ghost use Rattle.rules.specs.Checks.{of_unit, has_name};

use crate::places::is_named;
use rules::{Name, Standing};

fn has_name(names: &[Name], unit: u32, serial: u32) -> bool
    ensures { result ≡ has_name unit serial names.now }
{
    names.contains(&Name { unit, serial })
}

fn has_order(orders: &[Standing], unit: u32, serial: u32) -> bool
    ensures { result ≡ is_some (first_place (of_unit unit serial) orders.now) }
{
    orders.iter().any(|x| is_named(unit, serial, x))
}

// Whether the unit has used the serial today, for an order or for a cancel. Unit and serial come apart, as fields of an
// order or of a cancel.
pub fn serial_is_used(orders: &[Standing], cancels: &[Name], unit: u32, serial: u32) -> bool
    ensures { result ≡ is_some (first_place (of_unit unit serial) orders.now) || has_name unit serial cancels.now }
{
    has_order(orders, unit, serial) || has_name(cancels, unit, serial)
}
