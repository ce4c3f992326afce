//! Bytes of ASCII as a text.
//!
//! Bytes that are known to be ASCII become a text without a look at them (`ascii_str` of `base_io`). That is the one
//! `unsafe` line of this repository; its condition is proved as any other.
ghost use Rattle.std.specs.Prelude.{◌≡◌};
ghost use Rattle.std.specs.Str.{IsAscii};

/// Bytes of ASCII as a text. They are UTF-8 (RFC 3629, section 3), so it takes no look at them.
#[tactic(auto, using(crate::proofs::PlainTexts::ascii_is_text))]
pub fn ascii_str(bytes: &[u8]) -> &str
    requires { IsAscii bytes.now }
    ensures { result.now ≡ bytes.now }
{
    // SAFETY: bytes of ASCII are UTF-8, as is proved here.
    unsafe { str::from_utf8_unchecked(bytes) }
}
