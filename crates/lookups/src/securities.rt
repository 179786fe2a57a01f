ghost use Rattle.std.specs.Prelude.{◌≡◌};
ghost use Rattle.rules.specs.Listing.{find_listed};

use rules::Security;

// The security of that code, if it is listed.
pub fn find_listed(securities: &[Security], code: u32) -> Option<Security>
    ensures { result ≡ find_listed securities.now code }
{
    securities.iter().find(|s| s.code == code).copied()
}
