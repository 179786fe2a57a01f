ghost use Rattle.std.specs.Prelude.{◌≡◌};

// What one account has of one item.
#[derive(Clone, Copy)]
pub struct PairRecord {
    pub(crate) account: u64,
    pub(crate) item: u32,
    pub(crate) free: u64,
    pub(crate) held: u64,
}

impl PairRecord {
    // A place that is not used yet.
    pub fn blank() -> PairRecord
        ensures { result ≡ record { account = 0; item = 0; free = 0; held = 0 } }
    {
        PairRecord {
            account: 0,
            item: 0,
            free: 0,
            held: 0,
        }
    }
}
