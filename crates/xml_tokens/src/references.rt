//! References (XML 1.0, sections 4.1 and 4.6).
//!
//! What a reference stands for, which tags are restricted, whether a name is qualified and which bytes are white
//! space are said inside the grammar by the reader's own functions: a relation would list the same cases again. For
//! them the worked values and the vectors speak.
ghost use Rattle.std.specs.Prelude.{◌≡◌, ◌<◌, [], min};
ghost use Rattle.std.specs.List.{list_all};
ghost use Rattle.xml_tokens.specs.Characters;
ghost use Rattle.xml_tokens.specs.References;

use crate::characters::{ends_forbidden, is_name, is_name_byte, is_name_start};

/// What a reference stands for (XML 1.0, sections 4.1 and 4.6).
#[derive(Clone, Copy, Debug, PartialEq, Eq)]
pub enum Reference {
    /// A character: a predefined entity, or a character reference to one of XML's characters.
    Character(char),
    /// An entity under another name, which XMPP restricts (RFC 6120, section 11.1).
    Unknown,
    /// No reference of XML: it isn't well formed, or refers to no character of XML.
    Malformed,
}

// One past the last character.
const PAST_CHARACTERS: u32 = 0x11_0000;

fn is_hex_digit(b: u8) -> bool
    ensures { result ≡ References.is_hex_digit b }
{
    b.is_ascii_digit() || b'a' <= b && b <= b'f' || b'A' <= b && b <= b'F'
}

fn is_digit(b: u8) -> bool
    ensures { result ≡ Characters.is_digit b }
{
    b.is_ascii_digit()
}

// The number of a digit, in either case.
fn digit_number(b: u8) -> u32
    ensures value { result ≡ References.digit_number b }
    ensures small { result < 256 }
{
    let d = if b < b'A' {
        b.saturating_sub(b'0')
    } else if b < b'a' {
        b - 55
    } else {
        b - 87
    };
    u32::from(d)
}

// The number of decimal digits, which stays past the last character once there.
fn decimal_number(digits: &[u8]) -> u32
    ensures { result ≡ min (References.number_of 10 digits.now) 1114112 }
{
    let mut n = 0;
    for d in digits {
        n = (n * 10 + digit_number(*d)).min(PAST_CHARACTERS);
    }
    n
}

// The number of hexadecimal digits, which stays past the last character once there.
fn hexadecimal_number(digits: &[u8]) -> u32
    ensures { result ≡ min (References.number_of 16 digits.now) 1114112 }
{
    let mut n = 0;
    for d in digits {
        n = (n * 16 + digit_number(*d)).min(PAST_CHARACTERS);
    }
    n
}

// The character with a number, where it is one of XML's.
fn character_numbered(n: u32) -> Reference
    ensures { result ≡ References.character_numbered n }
{
    match char::from_u32(n) {
        Some('\u{FFFE}' | '\u{FFFF}') => Reference::Malformed,
        Some(c) if c >= ' ' || c == '\t' || c == '\n' || c == '\r' => Reference::Character(c),
        _ => Reference::Malformed,
    }
}

fn are_all_digits(digits: &[u8]) -> bool
    ensures { result ≡ list_all Characters.is_digit digits.now }
{
    digits.iter().all(|d| is_digit(*d))
}

fn are_all_hex_digits(digits: &[u8]) -> bool
    ensures { result ≡ list_all References.is_hex_digit digits.now }
{
    digits.iter().all(|d| is_hex_digit(*d))
}

fn are_digits(digits: &[u8]) -> bool
    ensures { result ≡ References.are_digits Characters.is_digit digits.now }
{
    match digits.split_first() {
        Some((first, rest)) => is_digit(*first) && are_all_digits(rest),
        None => false,
    }
}

fn are_hex_digits(digits: &[u8]) -> bool
    ensures { result ≡ References.are_digits References.is_hex_digit digits.now }
{
    match digits.split_first() {
        Some((first, rest)) => is_hex_digit(*first) && are_all_hex_digits(rest),
        None => false,
    }
}

fn decimal_reference(digits: &[u8]) -> Reference
    ensures { result ≡ References.decimal_reference digits.now }
{
    if are_digits(digits) {
        character_numbered(decimal_number(digits))
    } else {
        Reference::Malformed
    }
}

fn hexadecimal_reference(digits: &[u8]) -> Reference
    ensures { result ≡ References.hexadecimal_reference digits.now }
{
    if are_hex_digits(digits) {
        character_numbered(hexadecimal_number(digits))
    } else {
        Reference::Malformed
    }
}

// What stands behind `#`.
fn character_reference(bytes: &[u8]) -> Reference
    ensures { result ≡ References.character_reference bytes.now }
{
    match bytes.split_first() {
        Some((first, digits)) if *first == b'x' => hexadecimal_reference(digits),
        Some(_) => decimal_reference(bytes),
        None => Reference::Malformed,
    }
}

fn entity_reference(name: &[u8]) -> Reference
    ensures { result ≡ References.entity_reference name.now }
{
    if name == b"amp".as_slice() {
        Reference::Character('&')
    } else if name == b"lt".as_slice() {
        Reference::Character('<')
    } else if name == b"gt".as_slice() {
        Reference::Character('>')
    } else if name == b"apos".as_slice() {
        Reference::Character('\'')
    } else if name == b"quot".as_slice() {
        Reference::Character('"')
    } else if is_name(name) {
        Reference::Unknown
    } else {
        Reference::Malformed
    }
}

/// What a reference stands for: `name` is what stands between its `&` and its `;` (XML 1.0, sections 4.1 and 4.6).
#[tactic(auto, unfolding(crate::specs::References::referred))]
pub fn referred(name: &[u8]) -> Reference
    ensures { result ≡ References.referred name.now }
{
    match name.split_first() {
        Some((first, rest)) if *first == b'#' => character_reference(rest),
        Some(_) => entity_reference(name),
        None => Reference::Malformed,
    }
}

// Whether a byte ends a character that is none of XML's behind other bytes.
fn ends_forbidden_after(bytes: &[u8], c: u8) -> bool
    ensures { result ≡ References.ends_forbidden_after bytes.now c }
{
    match *bytes {
        [.., a, b] => ends_forbidden(a, b, c),
        [b] => ends_forbidden(0, b, c),
        [] => ends_forbidden(0, 0, c),
    }
}

// Whether a byte goes on a character reference, behind `#` and other bytes.
fn number_goes_on(so_far: &[u8], b: u8) -> bool
    ensures { result ≡ References.number_goes_on so_far.now b }
{
    match so_far.first() {
        Some(first) if *first == b'x' => is_hex_digit(b),
        Some(_) => is_digit(b),
        None => b == b'x' || is_digit(b),
    }
}

/// Whether a byte other than `;` goes on a reference, behind its `&` and the bytes so far. A colon goes on none.
#[tactic(auto, unfolding(crate::specs::References::reference_goes_on))]
pub fn reference_goes_on(so_far: &[u8], b: u8) -> bool
    ensures { result ≡ References.reference_goes_on so_far.now b }
{
    match so_far.split_first() {
        Some((first, rest)) if *first == b'#' => number_goes_on(rest, b),
        Some(_) => is_name_byte(b) && !ends_forbidden_after(so_far, b),
        None => b == b'#' || is_name_start(b),
    }
}
