//! UTF-8, a byte at a time (RFC 3629).
ghost use Rattle.std.specs.Prelude.{◌≡◌, ◌≤◌, ℕ, List, [], ◌++◌, Some, None, length, take, is_ok, string_bytes, OnOk, OnErr, if◌then◌else◌};
ghost use Rattle.std.specs.Option.{option_map};
ghost use Rattle.std.specs.Result.{result_ok};
ghost use Rattle.std.specs.Str.{IsUtf8};
ghost use Rattle.std.specs.Str.Lossy.{utf8_valid_len};
ghost use Rattle.xml_tokens.specs.Held.{held_bytes};
ghost use Rattle.xml_tokens.specs.Utf8;
ghost use Rattle.xml_tokens.specs.Utf8.{IsPending, continues, ended_character, ends_character, ends_forbidden_character, held_after, utf8_next};

use crate::characters::ends_forbidden;
use base_io::NoMemory;
use std::error::Error;
use std::fmt;
use std::marker::Model;

/// A byte can't continue the character in hand (RFC 3629, section 4).
#[derive(Clone, Copy, Debug, PartialEq, Eq)]
pub struct NotUtf8;

impl fmt::Display for NotUtf8 {
    fn fmt<W: fmt::Write>(&self, f: &mut fmt::Formatter<W>) -> fmt::Result {
        f.write_str("not UTF-8")
    }
}

impl Error for NotUtf8 {}

// The bytes of a character in hand.
#[derive(Clone, Copy, Debug)]
enum Held {
    Nothing,
    One(u8),
    Two(u8, u8),
    Three(u8, u8, u8),
}

/// The bytes of a UTF-8 character that has begun and not ended, at most three. Contracts see it as their list.
#[derive(Debug, Drop)]
pub struct PartialCharacter {
    held: Held,
}

impl Model for PartialCharacter {
    ghost use Rattle.std.specs.Prelude.{List, ℕ};

    ghost Value = { List ℕ };

    ghost use Rattle.xml_tokens.specs.Held.{held_bytes};
    ghost use Rattle.xml_tokens.specs.Utf8.{IsPending};

    ghost view = { λ p. held_bytes p.held };

    ghost invariant = { λ p. IsPending (held_bytes p.held) };
}

// Whether a byte is the second or a later one of a character (UTF8-tail).
fn is_tail(b: u8) -> bool
    ensures { result ≡ Utf8.is_tail b }
{
    128 <= b && b <= 191
}

// Whether a byte is the first of a character of two to four bytes.
fn is_lead(b: u8) -> bool
    ensures { result ≡ Utf8.is_lead b }
{
    194 <= b && b <= 244
}

// Whether a byte may follow the first byte of a character.
fn is_second(first: u8, b: u8) -> bool
    ensures { result ≡ Utf8.is_second first b }
{
    match first {
        224 => 160 <= b && b <= 191,
        237 => 128 <= b && b <= 159,
        240 => 144 <= b && b <= 191,
        244 => 128 <= b && b <= 143,
        _ => is_tail(b),
    }
}

// The bytes in hand after one more.
#[tactic(auto, unfolding(crate::specs::Utf8::utf8_next))]
fn next_held(held: Held, b: u8) -> Result<Held, NotUtf8>
    ensures { utf8_next (held_bytes held) b ≡ option_map held_bytes (result_ok result) }
{
    match held {
        Held::Nothing if b < 128 => Ok(Held::Nothing),
        Held::Nothing if is_lead(b) => Ok(Held::One(b)),
        Held::One(x) if is_second(x, b) => Ok(if x < 224 {
            Held::Nothing
        } else {
            Held::Two(x, b)
        }),
        Held::Two(x, y) if is_tail(b) => Ok(if x < 240 {
            Held::Nothing
        } else {
            Held::Three(x, y, b)
        }),
        Held::Three(_, _, _) if is_tail(b) => Ok(Held::Nothing),
        _ => Err(NotUtf8),
    }
}

impl PartialCharacter {
    /// No character has begun.
    pub fn new() -> PartialCharacter
        ensures { result ≡ [] }
    {
        PartialCharacter {
            held: Held::Nothing,
        }
    }

    /// How many bytes of a character are in hand, at most three.
    pub fn len(&self) -> usize
        ensures { result ≡ length self.now }
    {
        match self.held {
            Held::Nothing => 0,
            Held::One(_) => 1,
            Held::Two(_, _) => 2,
            Held::Three(_, _, _) => 3,
        }
    }

    /// Takes the next byte. `NotUtf8` comes exactly where it can't continue the character in hand, and leaves that
    /// as it was.
    pub fn take(&mut self, b: u8) -> Result<(), NotUtf8>
        ensures next { utf8_next self.old b ≡ (if is_ok result then Some self.new else None) }
        ensures after { self.new ≡ held_after self.old b }
        ensures refused { OnErr result (self.new ≡ self.old) }
    {
        self.held = next_held(self.held, b)?;
        Ok(())
    }

    /// Whether the next byte can continue the character in hand, or begin one.
    pub fn continues(&self, b: u8) -> bool
        ensures { result ≡ continues self.now b }
    {
        next_held(self.held, b).is_ok()
    }

    /// Whether the next byte ends a character.
    pub fn ends(&self, b: u8) -> bool
        ensures { result ≡ ends_character self.now b }
    {
        match next_held(self.held, b) {
            Ok(Held::Nothing) => true,
            _ => false,
        }
    }

    /// Adds the character that the next byte ends to a text, and nothing where it ends none. A refusal leaves the text
    /// as it was.
    pub fn append_ended(&self, b: u8, text: &mut String) -> Result<(), NoMemory>
        ensures ok { OnOk result (string_bytes text.new ≡ string_bytes text.old ++ ended_character self.now b) }
        ensures err { OnErr result (string_bytes text.new ≡ string_bytes text.old) }
    {
        if !self.ends(b) {
            return Ok(());
        }
        match self.held {
            Held::Nothing => push_bytes(text, &[b]),
            Held::One(x) => push_bytes(text, &[x, b]),
            Held::Two(x, y) => push_bytes(text, &[x, y, b]),
            Held::Three(x, y, z) => push_bytes(text, &[x, y, z, b]),
        }
    }

    /// Whether the next byte ends a character that is none of XML's: a control character, or U+FFFE or U+FFFF.
    pub fn ends_forbidden(&self, b: u8) -> bool
        ensures { result ≡ ends_forbidden_character self.now b }
    {
        match self.held {
            Held::Two(x, y) => ends_forbidden(x, y, b),
            _ => ends_forbidden(0, 0, b),
        }
    }
}

// Adds bytes that are UTF-8 to a text.
fn push_bytes(text: &mut String, bytes: &[u8]) -> Result<(), NoMemory>
    requires { IsUtf8 bytes.now }
    ensures ok { OnOk result (string_bytes text.new ≡ string_bytes text.old ++ bytes.now) }
    ensures err { OnErr result (string_bytes text.new ≡ string_bytes text.old) }
{
    match str::from_utf8(bytes) {
        Ok(characters) => text.push_str(characters)?,
        Err(_) => unreachable!(),
    }
    Ok(())
}

/// How many bytes of a slice are whole characters of UTF-8, from the front on.
pub fn text_front(bytes: &[u8]) -> usize
    ensures most { result ≡ utf8_valid_len bytes.now }
    ensures text { IsUtf8 (take result bytes.now) }
    ensures bound { result ≤ length bytes.now }
{
    match str::from_utf8(bytes) {
        Ok(_) => bytes.len(),
        Err(e) => e.valid_up_to(),
    }
}
