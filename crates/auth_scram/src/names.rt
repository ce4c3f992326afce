//! Names as they are read (RFC 5802, section 7, `saslname`).
ghost use Rattle.std.specs.Prelude.{◌≡◌};
ghost use Rattle.std.specs.Option.{option_map};
ghost use Rattle.auth_scram.specs.States.{name_goes_on, name_may_end, name_starts, placed};

use crate::parts::Part;
use crate::values::{Tails, character};

/// A `saslname` (RFC 5802, section 7), as far as it was read: nothing of it, whole characters, inside a character of
/// several bytes, or behind `=`, `=2` or `=3`.
#[derive(Clone, Copy)]
pub(crate) enum Name {
    Start,
    Between,
    Inside(Tails),
    Escape,
    EscapedComma,
    EscapedEquals,
}

/// The state behind a byte of a character.
fn in_name(tails: Option<Option<Tails>>) -> Option<Name>
    ensures { result ≡ option_map (placed Name.Between (λ tails. Name.Inside tails)) tails }
{
    match tails {
        None => None,
        Some(None) => Some(Name::Between),
        Some(Some(tails)) => Some(Name::Inside(tails)),
    }
}

/// The state behind the first byte of a character, or of what stands for one.
fn begun(byte: u8) -> Option<Name>
    ensures { result ≡ name_starts byte }
{
    if byte == b'=' {
        return Some(Name::Escape);
    }
    in_name(character(byte))
}

impl Part for Name {
    ghost goes_on = { name_goes_on };

    ghost may_end = { name_may_end };

    fn after(self, byte: u8) -> Option<Name> {
        match self {
            Name::Start | Name::Between => begun(byte),
            Name::Inside(tails) => in_name(tails.after(byte)),
            Name::Escape if byte == b'2' => Some(Name::EscapedComma),
            Name::Escape if byte == b'3' => Some(Name::EscapedEquals),
            Name::EscapedComma if byte == b'C' => Some(Name::Between),
            Name::EscapedEquals if byte == b'D' => Some(Name::Between),
            _ => None,
        }
    }

    fn ends(self) -> bool {
        matches!(self, Name::Between)
    }
}
