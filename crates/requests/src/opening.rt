ghost use Rattle.std.specs.Prelude.{◌≡◌, ◌&&◌, if◌then◌else◌, Some, None, nat_lt};
ghost use Rattle.market.specs.Ranges.{admits};
ghost use Rattle.market.specs.declared.ranges.Figure.TheVariants.{Date};

use market::Figure;

// The date of an opening, if it is in range and later than the last.
pub fn opening_date(date: u64, last: u32) -> Option<u32>
    ensures { result ≡ (if admits Date date && nat_lt last date then Some date else None) }
{
    if Figure::Date.admits(date) && (last as u64) < date {
        Some(date as u32)
    } else {
        None
    }
}
