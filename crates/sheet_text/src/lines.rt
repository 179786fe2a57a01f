ghost use Rattle.std.specs.Prelude.{◌≡◌};
ghost use Rattle.std.specs.Option.{option_map};
ghost use Rattle.sheet_text.specs.Lines.{first_line};

use crate::cuts::cut;

// The byte that ends a line.
const LINE_END: u8 = b'\n';

// The first line of a sheet, and what stands behind it.
pub fn first_line(sheet: &[u8]) -> Option<(&[u8], &[u8])>
    ensures { option_map (λ p. (p.0.now, p.1.now)) result ≡ first_line sheet.now }
{
    if sheet.is_empty() {
        return None;
    }
    let (line, rest) = cut(sheet, LINE_END);
    match rest {
        [_, behind @ ..] => Some((line, behind)),
        [] => Some((line, rest)),
    }
}
