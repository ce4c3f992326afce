//! Attribute values (XML 1.0, sections 2.11, 3.1 and 3.3.3).
//!
//! What a value says is a relation too (`SpellsValue`), so that a reader that is wrong in the same way as its
//! definition is refused.
ghost use Rattle.std.specs.Prelude.{◌≡◌, ◌<◌, ◌≤◌, ◌==◌, ◌++◌, [], ◌∷◌, true, false, Some, None, Ok, Err, length, encode_utf8, IfOk, IfErr, IfSome, IfNone, OnOk};
ghost use Rattle.std.specs.List.{list_all, list_any};
ghost use Rattle.std.specs.Option.{option_map};
ghost use Rattle.xml_tokens.specs.Faults.{IfRefused};
ghost use Rattle.xml_tokens.specs.Values;
ghost use Rattle.xml_tokens.specs.Values.{as_text, in_front, reference, text, value_from, value_of};

use crate::characters::are_characters;
use crate::fault::{TagFault, TagWhy};
use crate::fronts::{LANES, split_name_bytes, split_plain, split_until};
use crate::references::{Reference, referred};
use base_io::{NoMemory, Text, ascii_str};
use std::alloc::Global;

// Puts a character at the end.
fn push_character(value: &mut Vec<u8>, c: char) -> Result<(), NoMemory>
    ensures { OnOk result (value.new.items ≡ value.old.items ++ encode_utf8 c) }
{
    let mut buffer = [0; 4];
    value.extend_from_slice(c.encode_utf8(&mut buffer).as_bytes())?;
    Ok(())
}

// The character that a reference says, and what is behind it. `after` is what stands after its `&`.
fn reference_at(after: &[u8]) -> Option<(char, &[u8])>
    ensures found { IfSome result (λ f. value_from (reference []) after.now
        ≡ in_front (encode_utf8 f.0) (value_from (text false) f.1.now)) }
    ensures shorter { IfSome result (λ f. length f.1.now < length after.now) }
    ensures none { IfNone result (value_from (reference []) after.now ≡ None) }
{
    let (name, end) = split_until(after, b';');
    let (_, rest) = end.split_first()?;
    match referred(name) {
        Reference::Character(c) => Some((c, rest)),
        Reference::Unknown => None,
        Reference::Malformed => None,
    }
}

// What is behind a line feed at the front, or all where there is none.
fn skip_line_feed(after: &[u8]) -> &[u8]
    ensures same { value_from (text false) result.now ≡ value_from (text true) after.now }
    ensures shorter { length result.now ≤ length after.now }
{
    match after.split_first() {
        Some((first, rest)) if *first == b'\n' => rest,
        _ => after,
    }
}

// What one special byte at the front says, and what is behind it. `None` where it says nothing.
fn special_at(first: u8, after: &[u8]) -> Option<(char, &[u8])>
    requires { Values.is_plain first ≡ false }
    ensures found { IfSome result (λ f. value_from (text false) (first ∷ after.now)
        ≡ in_front (encode_utf8 f.0) (value_from (text false) f.1.now)) }
    ensures shorter { IfSome result (λ f. length f.1.now ≤ length after.now) }
    ensures none { IfNone result (value_from (text false) (first ∷ after.now) ≡ None) }
{
    match first {
        b'&' => reference_at(after),
        b'<' => None,
        b'\r' => Some((' ', skip_line_feed(after))),
        _ => Some((' ', after)),
    }
}

// Puts what one special byte at the front says at the end, and answers what is behind it, if it says something.
#[tactic(auto, using(crate::proofs::ValueRuns::in_front_pushed))]
fn take_special<'a>(
    value: &mut Vec<u8>,
    first: u8,
    after: &'a [u8],
) -> Result<Option<&'a [u8]>, NoMemory>
    requires { Values.is_plain first ≡ false }
    ensures left { IfOk result (λ o. IfSome o (λ left. in_front value.new.items (value_from (text false) left.now)
        ≡ in_front value.old.items (value_from (text false) (first ∷ after.now)))) }
    ensures shorter { IfOk result (λ o. IfSome o (λ left. length left.now ≤ length after.now)) }
    ensures nothing { IfOk result (λ o. IfNone o (value_from (text false) (first ∷ after.now) ≡ None)) }
{
    match special_at(first, after) {
        Some((c, left)) => {
            push_character(value, c)?;
            Ok(Some(left))
        }
        None => Ok(None),
    }
}

// Puts what the bytes at the front say at the end, and answers what is behind them, if they say something.
fn take_bytes<'a>(value: &mut Vec<u8>, rest: &'a [u8]) -> Result<Option<&'a [u8]>, NoMemory>
    requires { 0 < length rest.now }
    ensures left { IfOk result (λ o. IfSome o (λ left. in_front value.new.items (value_from (text false) left.now)
        ≡ in_front value.old.items (value_from (text false) rest.now))) }
    ensures shorter { IfOk result (λ o. IfSome o (λ left. length left.now < length rest.now)) }
    ensures nothing { IfOk result (λ o. IfNone o (value_from (text false) rest.now ≡ None)) }
{
    let (plain, special) = split_plain(rest);
    value.extend_from_slice(plain)?;
    match special.split_first() {
        Some((first, after)) => take_special(value, *first, after),
        None => Ok(Some(special)),
    }
}

// The bytes that a spelled value says, if it says some.
fn value_bytes(alloc: Global, raw: &[u8]) -> Result<Option<Vec<u8>>, NoMemory>
    ensures { IfOk result (λ o. option_map (λ v. v.items) o ≡ value_from (text false) raw.now) }
{
    let mut value = Vec::with_capacity(alloc, raw.len())?;
    let mut rest = raw;
    while !rest.is_empty() {
        match take_bytes(&mut value, rest)? {
            Some(left) => rest = left,
            None => return Ok(None),
        }
    }
    Ok(Some(value))
}

// The text that bytes are, if they are UTF-8.
fn text_from(bytes: Vec<u8>) -> Option<Text>
    ensures { result ≡ as_text (Some bytes.items) }
{
    match String::from_utf8(bytes) {
        Ok(characters) => Some(Text::from(characters)),
        Err(_) => None,
    }
}

// Whether a byte is an ASCII character that a value says as it is.
fn is_plain_ascii(b: u8) -> bool
    ensures { result ≡ Values.is_plain_ascii b }
{
    b' ' <= b && b < 128 && b != b'&' && b != b'<'
}

// Whether a spelled value is what it says, and in ASCII.
#[tactic(auto, using(crate::proofs::Splits::all_in_parts, crate::proofs::Splits::all_after))]
fn are_plain_ascii(raw: &[u8]) -> bool
    ensures { result ≡ list_all Values.is_plain_ascii raw.now }
{
    let (front, back) = raw.split_at(raw.len() - raw.len() % LANES);
    all_plain_ascii(front) && each_plain_ascii(back)
}

// The same, one by one.
fn each_plain_ascii(raw: &[u8]) -> bool
    ensures { result ≡ list_all Values.is_plain_ascii raw.now }
{
    raw.iter().all(|b| is_plain_ascii(*b))
}

// Nothing for an ASCII character that a value says as it is, and something for another.
fn ascii_mark(b: u8) -> u8
    ensures { (result == 0) ≡ Values.is_plain_ascii b }
{
    if is_plain_ascii(b) { 0 } else { 1 }
}

// The same. No byte ends the loop, and what they tell is joined as numbers, so that it becomes vector code.
fn all_plain_ascii(raw: &[u8]) -> bool
    ensures { result ≡ list_all Values.is_plain_ascii raw.now }
{
    let mut marks = 0u8;
    for b in raw {
        marks |= ascii_mark(*b);
    }
    marks == 0
}

// A copy of a spelled value that is what it says.
#[tactic(auto, using(crate::proofs::PlainValues::plain_ascii))]
fn plain_text(alloc: Global, raw: &[u8]) -> Result<Option<Text>, NoMemory>
    requires { list_all Values.is_plain_ascii raw.now ≡ true }
    ensures { IfOk result (λ o. o ≡ Some raw.now) }
{
    Ok(Some(Text::from_str(alloc, ascii_str(raw))?))
}

// The value that a spelled one says, where no reference in it has an unknown name.
#[tactic(auto, unfolding(crate::specs::Values::value_of))]
pub(crate) fn value_text(alloc: Global, raw: &[u8]) -> Result<Option<Text>, NoMemory>
    ensures { IfOk result (λ o. o ≡ value_of raw.now) }
{
    if are_plain_ascii(raw) {
        return plain_text(alloc, raw);
    }
    if !are_characters(raw) {
        return Ok(None);
    }
    match value_bytes(alloc, raw)? {
        Some(value) => Ok(text_from(value)),
        None => Ok(None),
    }
}

// Whether a reference may begin somewhere in bytes.
pub(crate) fn has_ampersand(bytes: &[u8]) -> bool
    ensures { result ≡ list_any (λ b. b == 38) bytes.now }
{
    bytes.contains(&b'&')
}

// Whether bytes behind `&` begin with an unknown name and `;`.
pub(crate) fn begins_unknown(after: &[u8]) -> bool
    ensures { result ≡ Values.begins_unknown after.now }
{
    let (name, end) = split_name_bytes(after);
    begins_with_semicolon(end) && is_unknown(referred(name))
}

fn begins_with_semicolon(bytes: &[u8]) -> bool
    ensures { result ≡ Values.begins_with 59 bytes.now }
{
    match bytes.split_first() {
        Some((first, _)) => *first == b';',
        None => false,
    }
}

fn is_unknown(reference: Reference) -> bool
    ensures { result ≡ Values.is_unknown reference }
{
    match reference {
        Reference::Unknown => true,
        Reference::Character(_) => false,
        Reference::Malformed => false,
    }
}

/// Whether some reference in a spelled value has an unknown name.
#[tactic(auto, using(crate::proofs::Ampersands::no_unknown))]
pub fn has_unknown(raw: &[u8]) -> bool
    ensures { result ≡ Values.has_unknown raw.now }
{
    if !has_ampersand(raw) {
        return false;
    }
    for (i, b) in raw.iter().enumerate() {
        if *b == b'&' && begins_unknown(&raw[i + 1..]) {
            return true;
        }
    }
    false
}

/// The value that a spelled one says (XML 1.0, sections 3.1 and 3.3.3); `raw` is what stands between its quotes.
/// References are replaced, and a literal tab or line end is a space.
///
/// `Restricted` comes exactly where a reference has an unknown name, `NotWellFormed` exactly where none has one and
/// yet it says no value: a reference that is malformed, a `<`, or a character that is none of XML's.
pub fn read_value(alloc: Global, raw: &[u8]) -> Result<Text, TagFault>
    ensures ok { IfOk result (λ t. Values.outcome_of raw.now ≡ Ok t) }
    ensures refused { IfErr result (λ e. IfRefused e (λ why. Values.outcome_of raw.now ≡ Err why)) }
{
    if has_unknown(raw) {
        return Err(TagFault::Refused(TagWhy::Restricted));
    }
    match value_text(alloc, raw)? {
        Some(value) => Ok(value),
        None => Err(TagFault::Refused(TagWhy::NotWellFormed)),
    }
}
