//! XML declarations (XML 1.0, section 2.8).
ghost use Rattle.std.specs.Prelude.{◌≡◌, true, codes, Some, None, take, drop, if◌then◌else◌};
ghost use Rattle.std.specs.Option.{option_map};
ghost use Rattle.std.specs.Str.{bytes_eq};
ghost use Rattle.xml_tokens.specs.Declarations;
ghost use Rattle.xml_tokens.specs.Declarations.{declaration_of};
ghost use Rattle.xml_tokens.specs.SpelledView.{spelled_view};

use crate::attributes::{SpelledAttribute, spelled_at};
use crate::fronts::split_white;

/// What an XML declaration comes to (XML 1.0, section 2.8; RFC 6120, sections 11.4 to 11.6).
#[derive(Clone, Copy, Debug, PartialEq, Eq)]
pub enum Declaration {
    /// It is `version` 1.0, then perhaps `encoding` UTF-8 in any case, then perhaps `standalone` yes or no.
    Good,
    /// Before its first departure from the form `name = 'value'` it has an encoding other than UTF-8.
    Encoding,
    /// It is none of these.
    NotWellFormed,
}

// Whether a value is UTF-8 in any case.
#[tactic(auto, unfolding(crate::specs::Declarations::is_utf8_label))]
fn is_utf8_label(raw: &[u8]) -> bool
    ensures { result ≡ Declarations.is_utf8_label raw.now }
{
    raw.eq_ignore_ascii_case(b"UTF-8")
}

fn is_one_zero(raw: &[u8]) -> bool
    ensures { result ≡ Declarations.is_one_zero raw.now }
{
    raw == b"1.0".as_slice()
}

fn is_yes_or_no(raw: &[u8]) -> bool
    ensures { result ≡ Declarations.is_yes_or_no raw.now }
{
    raw == b"yes".as_slice() || raw == b"no".as_slice()
}

// Whether an item is an encoding other than UTF-8.
fn is_other(item: &SpelledAttribute<'_>) -> bool
    ensures { result ≡ Declarations.is_other (spelled_view item.now) }
{
    item.name == "encoding" && !is_utf8_label(item.raw)
}

// Whether an item is an encoding other than UTF-8, among those that bytes begin with.
fn has_other(bytes: &[u8]) -> bool
    ensures { result ≡ Declarations.has_other bytes.now }
{
    let mut rest = bytes;
    while let Some(item) = spelled_at(rest) {
        if is_other(&item) {
            return true;
        }
        rest = item.rest;
    }
    false
}

// What is behind `version` 1.0.
fn version_at(bytes: &[u8]) -> Option<&[u8]>
    ensures { option_map (λ r. r.now) result ≡ Declarations.item_at (codes "version") Declarations.is_one_zero bytes.now }
{
    match spelled_at(bytes) {
        Some(item) if item.name == "version" && is_one_zero(item.raw) => Some(item.rest),
        _ => None,
    }
}

// What is behind `encoding` UTF-8, or all where that isn't there.
fn after_encoding(bytes: &[u8]) -> &[u8]
    ensures { result.now ≡ Declarations.optional_at (codes "encoding") Declarations.is_utf8_label bytes.now }
{
    match spelled_at(bytes) {
        Some(item) if item.name == "encoding" && is_utf8_label(item.raw) => item.rest,
        _ => bytes,
    }
}

// What is behind `standalone` yes or no, or all where that isn't there.
fn after_standalone(bytes: &[u8]) -> &[u8]
    ensures { result.now ≡ Declarations.optional_at (codes "standalone") Declarations.is_yes_or_no bytes.now }
{
    match spelled_at(bytes) {
        Some(item) if item.name == "standalone" && is_yes_or_no(item.raw) => item.rest,
        _ => bytes,
    }
}

fn is_closed(bytes: &[u8]) -> bool
    ensures { result ≡ Declarations.is_closed bytes.now }
{
    split_white(bytes).1 == b"?>".as_slice()
}

#[tactic(auto, unfolding(crate::specs::Declarations::is_good))]
fn is_good(bytes: &[u8]) -> bool
    ensures { result ≡ Declarations.is_good bytes.now }
{
    match version_at(bytes) {
        Some(rest) => is_closed(after_standalone(after_encoding(rest))),
        None => false,
    }
}

// What is behind `<?xml`.
fn after_opening(bytes: &[u8]) -> Option<&[u8]>
    ensures { option_map (λ r. r.now) result ≡ (if bytes_eq (take 5 bytes.now) (codes "<?xml") then Some (drop 5 bytes.now) else None) }
{
    if bytes.len() < 5 {
        return None;
    }
    let (opening, rest) = bytes.split_at(5);
    if opening == b"<?xml".as_slice() {
        Some(rest)
    } else {
        None
    }
}

/// Reads an XML declaration off its whole bytes, from its `<?xml` to its `?>`. Other bytes are no declaration that is
/// well formed.
#[tactic(auto, unfolding(crate::specs::Declarations::declaration_of))]
pub fn read_declaration(bytes: &[u8]) -> Declaration
    ensures { result ≡ declaration_of bytes.now }
{
    match after_opening(bytes) {
        Some(items) if has_other(items) => Declaration::Encoding,
        Some(items) if is_good(items) => Declaration::Good,
        _ => Declaration::NotWellFormed,
    }
}
