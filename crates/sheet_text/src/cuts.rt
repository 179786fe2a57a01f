ghost use Rattle.std.specs.Prelude.{◌≡◌};
ghost use Rattle.sheet_text.specs.Cuts.{before, onward};

// What stands before the first such byte, and the rest, from that byte on.
pub fn cut(text: &[u8], byte: u8) -> (&[u8], &[u8])
    ensures front { result.0.now ≡ before byte text.now }
    ensures back { result.1.now ≡ onward byte text.now }
{
    let end = text.iter().position(|b| *b == byte).unwrap_or(text.len());
    text.split_at(end)
}
