ghost use Rattle.std.specs.Prelude.{◌+◌, ◌≤◌, length};
ghost use Rattle.sheet_text.specs.Lines.{lines};

// Reads a sheet line by line. `rest` is what is not handed out yet, `place` where its first line stands.
#[derive(Drop)]
pub struct Reader<'a> {
    pub(crate) rest: &'a [u8],
    pub(crate) place: usize,
    ghost few: { place + length (lines rest.now) ≤ 65537 },
}
