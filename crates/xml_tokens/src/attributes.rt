//! An attribute as it is spelled, read off the bytes of a tag.
ghost use Rattle.std.specs.Prelude.{◌≡◌, Some, None, if◌then◌else◌};
ghost use Rattle.std.specs.Option.{option_map};
ghost use Rattle.xml_tokens.specs.Fronts.{front, following};
ghost use Rattle.xml_tokens.specs.Tags;
ghost use Rattle.xml_tokens.specs.Values.{as_text};
ghost use Rattle.xml_tokens.specs.SpelledView.{spelled_view};

use crate::characters::{begins_as_name, is_name};
use crate::fronts::{
    goes_no_further, split_ascii_name, split_colon, split_qualified, split_until, split_white,
};
use base_io::ascii_str;

/// An attribute as it is spelled, and what is behind it.
#[derive(Clone, Copy)]
pub(crate) struct SpelledAttribute<'a> {
    pub(crate) name: &'a str,
    pub(crate) raw: &'a [u8],
    pub(crate) rest: &'a [u8],
}

/// Whether a byte opens a value: `"` or `'` (XML 1.0, section 2.3).
pub fn is_quote(b: u8) -> bool
    ensures { result ≡ Tags.is_quote b }
{
    b == b'"' || b == b'\''
}

// Whether what is behind the first part of a name is nothing, or a colon and a name.
fn is_after_colon(bytes: &[u8]) -> bool
    ensures { result ≡ Tags.is_after_colon bytes.now }
{
    match bytes.split_first() {
        Some((_, rest)) => is_name(rest),
        None => true,
    }
}

// Whether bytes are a name or two with a colon between, if they are UTF-8.
fn has_parts(name: &[u8]) -> bool
    ensures { result ≡ Tags.has_parts name.now }
{
    let (prefix, rest) = split_colon(name);
    is_name(prefix) && is_after_colon(rest)
}

// The text that bytes are, if they are UTF-8.
fn text_of(bytes: &[u8]) -> Option<&str>
    ensures { option_map (λ s. s.now) result ≡ as_text (Some bytes.now) }
{
    match str::from_utf8(bytes) {
        Ok(text) => Some(text),
        Err(_) => None,
    }
}

// The text of a qualified name.
#[tactic(auto, unfolding(crate::specs::Tags::is_qualified))]
fn qualified(name: &[u8]) -> Option<&str>
    ensures { option_map (λ s. s.now) result ≡ (if Tags.is_qualified name.now then Some name.now else None) }
{
    if has_parts(name) { text_of(name) } else { None }
}

// The text of the qualified name that bytes begin with, if they do, and what is behind its bytes. Most names are of ASCII
// and have no colon.
#[tactic(auto, using(crate::proofs::AsciiNames::stops_after, crate::proofs::AsciiNames::front_ascii, crate::proofs::AsciiNames::front_named, crate::proofs::AsciiNames::front_alone))]
pub(crate) fn split_named(bytes: &[u8]) -> (Option<&str>, &[u8])
    ensures name { option_map (λ s. s.now) result.0
        ≡ (if Tags.is_qualified (front Tags.is_qualified_byte bytes.now) then Some (front Tags.is_qualified_byte bytes.now) else None) }
    ensures rest { result.1.now ≡ following Tags.is_qualified_byte bytes.now }
{
    let (name, rest) = split_ascii_name(bytes);
    if begins_as_name(name) && goes_no_further(rest) {
        return (Some(ascii_str(name)), rest);
    }
    let (name, rest) = split_qualified(bytes);
    (qualified(name), rest)
}

// An attribute from its opening quote on.
fn quoted<'a>(name: &'a str, bytes: &'a [u8]) -> Option<SpelledAttribute<'a>>
    ensures { option_map spelled_view result ≡ Tags.quoted name.now bytes.now }
{
    let (quote, value) = bytes.split_first()?;
    if !is_quote(*quote) {
        return None;
    }
    let (raw, end) = split_until(value, *quote);
    let (_, rest) = end.split_first()?;
    Some(SpelledAttribute { name, raw, rest })
}

// An attribute from its `=` on.
fn assigned<'a>(name: &'a str, bytes: &'a [u8]) -> Option<SpelledAttribute<'a>>
    ensures { option_map spelled_view result ≡ Tags.assigned name.now bytes.now }
{
    match bytes.split_first() {
        Some((first, rest)) if *first == b'=' => quoted(name, split_white(rest).1),
        _ => None,
    }
}

// The attribute that bytes begin with, behind white space.
#[tactic(auto, unfolding(crate::specs::Tags::spelled_at))]
pub(crate) fn spelled_at(bytes: &[u8]) -> Option<SpelledAttribute<'_>>
    ensures { option_map spelled_view result ≡ Tags.spelled_at bytes.now }
{
    let (space, spelled) = split_white(bytes);
    if space.is_empty() {
        return None;
    }
    let (name, rest) = split_named(spelled);
    assigned(name?, split_white(rest).1)
}

// How a start tag ends that has only these bytes left.
pub(crate) fn end_in(bytes: &[u8]) -> Option<bool>
    ensures { result ≡ Tags.end_in bytes.now }
{
    match *bytes {
        [a] if a == b'>' => Some(false),
        [a, b] if a == b'/' && b == b'>' => Some(true),
        _ => None,
    }
}
