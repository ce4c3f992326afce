//! The texts that name sessions for a resumption (XEP-0198, section 5).
ghost use Rattle.std.specs.Prelude.{◌≡◌};
ghost use Rattle.sm_resumption.specs.Previds.{previd_of};

use base_lemmas::hex16;

/// The `previd` of the session with a number, by which it is resumed.
pub fn previd_text(number: u64) -> [u8; 16]
    ensures { result ≡ previd_of number }
{
    hex16(number)
}
