//! Values and extensions as they are read (RFC 5802, section 7).
ghost use Rattle.std.specs.Prelude.{◌≡◌};
ghost use Rattle.std.specs.Option.{option_map};
ghost use Rattle.auth_scram.specs.Classes.{is_letter, is_value_ascii};
ghost use Rattle.auth_scram.specs.States.{character_step, extension_starts, extensions_go_on, extensions_may_end, in_value, tails_of, tails_step};

use crate::parts::Part;

/// What follows the first bytes of a character of two bytes or more (RFC 3629, section 4).
#[derive(Clone, Copy)]
pub(crate) enum Tails {
    /// One byte from 80 to BF.
    One,
    /// Two such bytes.
    Two,
    /// Three such bytes.
    Three,
    /// A byte from A0 to BF, and one more.
    AfterE0,
    /// A byte from 80 to 9F, and one more.
    AfterED,
    /// A byte from 90 to BF, and two more.
    AfterF0,
    /// A byte from 80 to 8F, and two more.
    AfterF4,
}

/// What follows extensions: the end of the message, or the proof.
#[derive(Clone, Copy)]
pub(crate) enum Until {
    End,
    Proof,
}

/// Extensions, each behind a comma, as far as they were read: the next byte is a comma, a letter, an equals sign, the
/// first of a value, one of a value, or inside a character of several bytes. Behind a comma a proof may begin, where
/// one is to come.
#[derive(Clone, Copy)]
pub(crate) enum Extensions {
    Comma(Until),
    Letter(Until),
    Equals(Until),
    First(Until),
    Value(Until),
    Inside(Until, Tails),
    ProofEquals,
    ProofBegins,
}

pub(crate) fn is_value_ascii(byte: u8) -> bool
    ensures { result ≡ is_value_ascii byte }
{
    matches!(byte, 0x01..=0x2B | 0x2D..=0x7F)
}

fn is_letter(byte: u8) -> bool
    ensures { result ≡ is_letter byte }
{
    byte.is_ascii_alphabetic()
}

/// What follows the first byte of a character of two bytes or more; `None` where it is the first of none.
pub(crate) fn tails_of(byte: u8) -> Option<Tails>
    ensures { result ≡ tails_of byte }
{
    match byte {
        0xC2..=0xDF => Some(Tails::One),
        0xE0 => Some(Tails::AfterE0),
        0xED => Some(Tails::AfterED),
        0xE1..=0xEF => Some(Tails::Two),
        0xF0 => Some(Tails::AfterF0),
        0xF1..=0xF3 => Some(Tails::Three),
        0xF4 => Some(Tails::AfterF4),
        _ => None,
    }
}

/// What is to come behind the first byte of a character of a value: `Some(None)` where that is all of it, `None` where
/// it begins no such character.
pub(crate) fn character(byte: u8) -> Option<Option<Tails>>
    ensures { result ≡ character_step byte }
{
    if is_value_ascii(byte) {
        return Some(None);
    }
    match tails_of(byte) {
        Some(tails) => Some(Some(tails)),
        None => None,
    }
}

impl Tails {
    /// What is to come behind one more byte of the character: `Some(None)` where that was its last, `None` where the
    /// character has no such byte.
    pub fn after(self, byte: u8) -> Option<Option<Tails>>
        ensures { result ≡ tails_step self byte }
    {
        let (low, high, more) = match self {
            Tails::One => (0x80, 0xBF, None),
            Tails::Two => (0x80, 0xBF, Some(Tails::One)),
            Tails::Three => (0x80, 0xBF, Some(Tails::Two)),
            Tails::AfterE0 => (0xA0, 0xBF, Some(Tails::One)),
            Tails::AfterED => (0x80, 0x9F, Some(Tails::One)),
            Tails::AfterF0 => (0x90, 0xBF, Some(Tails::Two)),
            Tails::AfterF4 => (0x80, 0x8F, Some(Tails::Two)),
        };
        if low <= byte && byte <= high {
            Some(more)
        } else {
            None
        }
    }
}

/// The state behind a byte of a value.
fn in_value(until: Until, tails: Option<Option<Tails>>) -> Option<Extensions>
    ensures { result ≡ option_map (in_value until) tails }
{
    match tails {
        None => None,
        Some(None) => Some(Extensions::Value(until)),
        Some(Some(tails)) => Some(Extensions::Inside(until, tails)),
    }
}

/// The state behind the byte that follows a comma.
fn extension(until: Until, byte: u8) -> Option<Extensions>
    ensures { result ≡ extension_starts until byte }
{
    match until {
        Until::Proof if byte == b'p' => Some(Extensions::ProofEquals),
        _ if is_letter(byte) && byte != b'm' => Some(Extensions::Equals(until)),
        _ => None,
    }
}

impl Part for Extensions {
    ghost goes_on = { extensions_go_on };

    ghost may_end = { extensions_may_end };

    fn after(self, byte: u8) -> Option<Extensions> {
        match self {
            Extensions::Comma(until) if byte == b',' => Some(Extensions::Letter(until)),
            Extensions::Letter(until) => extension(until, byte),
            Extensions::Equals(until) if byte == b'=' => Some(Extensions::First(until)),
            Extensions::First(until) => in_value(until, character(byte)),
            Extensions::Value(until) if byte == b',' => Some(Extensions::Letter(until)),
            Extensions::Value(until) => in_value(until, character(byte)),
            Extensions::Inside(until, tails) => in_value(until, tails.after(byte)),
            Extensions::ProofEquals if byte == b'=' => Some(Extensions::ProofBegins),
            _ => None,
        }
    }

    fn ends(self) -> bool {
        matches!(
            self,
            Extensions::Comma(Until::End) | Extensions::Value(Until::End) | Extensions::ProofBegins
        )
    }
}
