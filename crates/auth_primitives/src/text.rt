//! A base64 text as it is read.
//!
//! Canonical base64 is judged byte by byte (`auth_primitives`): whether an element has a bad field is told without
//! memory, of a text that may lie in pieces. Who needs the bytes decodes with the ported `base64`; the law
//! `base64_is_read_exactly` says that both accept the same texts.
ghost use Rattle.std.specs.Prelude.{◌≡◌, ◌%◌, ◌==◌};
ghost use Rattle.auth_primitives.specs.Canonical.{is_base64};
ghost use Rattle.auth_primitives.specs.Reading.{base64_after, base64_goes_on, base64_may_end, sextet};
ghost use Rattle.auth_primitives.specs.declared.text.Base64Text.TheVariants.{Whole};

/// A canonical base64 text (RFC 4648, section 4), as far as it was read: whole groups of four; one, two or three
/// symbols of a group, and whether the bits that are no byte's are 0 so far; the first of two `=`, or the last `=`.
#[derive(Clone, Copy)]
pub enum Base64Text {
    Whole,
    One,
    Two(bool),
    Three(bool),
    Padding,
    Padded,
}

/// The number of a base64 symbol.
fn sextet(byte: u8) -> Option<u8>
    ensures { result ≡ sextet byte }
{
    match byte {
        b'A'..=b'Z' => Some(byte - 65),
        b'a'..=b'z' => Some(byte - 71),
        b'0'..=b'9' => Some(byte + 4),
        b'+' => Some(62),
        b'/' => Some(63),
        _ => None,
    }
}

impl Base64Text {
    /// The empty text.
    pub fn new() -> Base64Text
        ensures { result ≡ Whole }
    {
        Base64Text::Whole
    }

    /// The text with a byte more. `None` where no base64 text begins so.
    pub fn followed_by(self, byte: u8) -> Option<Base64Text>
        ensures { result ≡ base64_goes_on self byte }
    {
        match self {
            Base64Text::Two(true) if byte == b'=' => return Some(Base64Text::Padding),
            Base64Text::Three(true) if byte == b'=' => return Some(Base64Text::Padded),
            Base64Text::Padding if byte == b'=' => return Some(Base64Text::Padded),
            Base64Text::Padding | Base64Text::Padded => return None,
            _ => {}
        }
        let value = sextet(byte)?;
        match self {
            Base64Text::Whole => Some(Base64Text::One),
            Base64Text::One => Some(Base64Text::Two(value % 16 == 0)),
            Base64Text::Two(_) => Some(Base64Text::Three(value % 4 == 0)),
            _ => Some(Base64Text::Whole),
        }
    }

    /// The text with these bytes more. `None` where no base64 text begins so.
    pub fn followed_by_all(self, bytes: &[u8]) -> Option<Base64Text>
        ensures { result ≡ base64_after self bytes.now }
    {
        let mut text = self;
        for byte in bytes {
            text = text.followed_by(*byte)?;
        }
        Some(text)
    }

    /// Whether the text may end here.
    pub fn is_complete(self) -> bool
        ensures { result ≡ base64_may_end self }
    {
        matches!(self, Base64Text::Whole | Base64Text::Padded)
    }
}

/// Whether a text is the base64 of some bytes, padded, with nothing in the bits that are no byte's (RFC 4648, sections
/// 3.2, 3.5 and 4). It takes no memory.
pub fn is_base64(text: &[u8]) -> bool
    ensures { result ≡ is_base64 text.now }
{
    match Base64Text::new().followed_by_all(text) {
        Some(end) => end.is_complete(),
        None => false,
    }
}
