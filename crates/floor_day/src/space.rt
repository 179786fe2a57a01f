ghost use Rattle.std.specs.Prelude.{◌≡◌, ◌-◌, length};

use tape::Tape;

// How many lines the tape still takes.
pub(crate) fn lines_left<T: Tape>(tape: &T) -> usize
    ensures { result ≡ (T.contents tape.now).capacity - length (T.contents tape.now).lines }
{
    tape.capacity().saturating_sub(tape.count())
}
