//! Names and passwords of printable ASCII.
ghost use Rattle.std.specs.Prelude.{◌≡◌};
ghost use Rattle.std.specs.List.{list_all};
ghost use Rattle.auth_scram.specs.Exchange.{is_plain, is_printable_ascii};

// Whether a byte is printable ASCII, U+20 to U+7E.
fn is_printable_ascii(byte: u8) -> bool
    ensures { result ≡ is_printable_ascii byte }
{
    32 <= byte && byte <= 126
}

fn are_printable_ascii(bytes: &[u8]) -> bool
    ensures { result ≡ list_all is_printable_ascii bytes.now }
{
    bytes.iter().all(|b| is_printable_ascii(*b))
}

// Whether a name or a password is printable ASCII, and not empty.
pub(crate) fn is_plain(text: &str) -> bool
    ensures { result ≡ is_plain text.now }
{
    let bytes = text.as_bytes();
    bytes.len() > 0 && are_printable_ascii(bytes)
}
