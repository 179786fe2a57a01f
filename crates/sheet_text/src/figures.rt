ghost use Rattle.std.specs.Prelude.{◌≡◌};
ghost use Rattle.sheet_text.specs.Figures.{figure as the_figure};

// Eighteen digits always fit 64 bits.
const MOST_DIGITS: usize = 18;

// The number that 1 to 18 decimal digits write.
#[tactic(auto, using(crate::proofs::Reading::room))]
pub fn figure(text: &[u8]) -> Option<u64>
    ensures { result ≡ the_figure text.now }
{
    if text.is_empty() || text.len() > MOST_DIGITS {
        return None;
    }
    let mut n = 0;
    for b in text {
        if !b.is_ascii_digit() {
            return None;
        }
        n = n * 10 + u64::from(*b - b'0');
    }
    Some(n)
}
