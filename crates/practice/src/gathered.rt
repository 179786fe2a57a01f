ghost use Rattle.std.specs.Prelude.{◌≤◌, vec_len, vec_capacity};

use rules::ListEntry;

// The securities gathered for the next opening. All memory for them is taken when it is made.
#[derive(Drop)]
pub(crate) struct Gathered {
    pub(crate) entries: Vec<ListEntry>,
    ghost few: { vec_len entries ≤ 64 },
    ghost reserved: { 64 ≤ vec_capacity entries },
}
