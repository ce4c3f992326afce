//! Tags (XML 1.0, section 3.1).
ghost use Rattle.std.specs.Prelude.{◌≡◌, ◌<◌, [], ◌∷◌, ◌++◌, true, false, Some, None, Ok, Err, length, map, IfOk, IfErr, IfSome, OnOk};
ghost use Rattle.xml_tokens.specs.Faults.{IfRefused};
ghost use Rattle.xml_tokens.specs.RawTags.{attribute_of, raw_tag};
ghost use Rattle.xml_tokens.specs.Tags;
ghost use Rattle.std.specs.Option.{option_map};
ghost use Rattle.xml_tokens.specs.Tags.{end_name, end_tag, inside_of, tag_of};

use crate::attributes::{end_in, is_quote, spelled_at, split_named};
use crate::distinct::are_distinct;
use crate::fault::{TagFault, TagWhy};
use crate::fronts::split_white;
use crate::raw_tags::{RawAttribute, RawTag, StartTag};
use crate::values::{begins_unknown, has_ampersand, value_text};
use base_io::NoMemory;
use std::alloc::Global;

/// Room for so many attributes is taken with the first one. Most tags have no more.
const FIRST_ATTRIBUTES: usize = 4;

// The attribute that bytes begin with, and what is behind it, if they begin with one.
fn attribute_at<'a>(
    alloc: Global,
    bytes: &'a [u8],
) -> Result<Option<(RawAttribute<'a>, &'a [u8])>, NoMemory>
    ensures found { IfOk result (λ o. option_map (λ r. record { attribute = attribute_of r.0; rest = r.1.now }) o
        ≡ Tags.attribute_at bytes.now) }
    ensures shorter { IfOk result (λ o. IfSome o (λ r. length r.1.now < length bytes.now)) }
{
    let Some(spelled) = spelled_at(bytes) else {
        return Ok(None);
    };
    let name = spelled.name;
    match value_text(alloc, spelled.raw)? {
        Some(value) => Ok(Some((RawAttribute { name, value }, spelled.rest))),
        None => Ok(None),
    }
}

// Adds an attribute to those that were read before it.
fn add<'a>(
    attributes: &mut Vec<RawAttribute<'a>>,
    attribute: RawAttribute<'a>,
) -> Result<(), NoMemory>
    ensures { OnOk result (attributes.new.items ≡ attributes.old.items ++ attribute.entry ∷ []) }
{
    if attributes.is_empty() {
        attributes.reserve(FIRST_ATTRIBUTES)?;
    }
    attributes.push(attribute)?;
    Ok(())
}

// The attributes of a start tag, and whether it is that of an empty element, if bytes are such.
fn read_inside<'a>(
    alloc: Global,
    bytes: &'a [u8],
) -> Result<Option<(Vec<RawAttribute<'a>>, bool)>, NoMemory>
    ensures { IfOk result (λ o. option_map (λ r. record { attributes = map attribute_of r.0.items; empty = r.1 }) o
        ≡ inside_of bytes.now) }
{
    let mut attributes = Vec::new(alloc);
    let mut rest = bytes;
    loop {
        if let Some(empty) = end_in(split_white(rest).1) {
            return Ok(Some((attributes, empty)));
        }
        match attribute_at(alloc, rest)? {
            Some((attribute, left)) => {
                add(&mut attributes, attribute)?;
                rest = left;
            }
            None => return Ok(None),
        }
    }
}

// A start tag, from behind its `<`, if bytes are one.
#[tactic(auto, unfolding(crate::specs::Tags::start_at))]
fn start_at<'a>(alloc: Global, bytes: &'a [u8]) -> Result<Option<StartTag<'a>>, NoMemory>
    ensures { IfOk result (λ o. option_map (λ t. raw_tag (RawTag.Start t)) o ≡ Tags.start_at bytes.now) }
{
    let (name, inside) = split_named(bytes);
    let Some(name) = name else {
        return Ok(None);
    };
    let Some((attributes, empty)) = read_inside(alloc, inside)? else {
        return Ok(None);
    };
    if !are_distinct(alloc, &attributes)? {
        return Ok(None);
    }
    Ok(Some(StartTag {
        name,
        attributes,
        empty,
    }))
}

// An end tag's name, from behind its `</`.
#[tactic(auto, unfolding(crate::specs::Tags::end_at))]
fn end_at(bytes: &[u8]) -> Option<&str>
    ensures { option_map (λ name. end_tag name.now) result ≡ Tags.end_at bytes.now }
{
    let (name, end) = split_named(bytes);
    let name = name?;
    if split_white(end).1 == b">".as_slice() {
        Some(name)
    } else {
        None
    }
}

/// Whether bytes begin as an end tag does, with `</` (XML 1.0, section 3.1).
pub fn is_end(bytes: &[u8]) -> bool
    ensures { result ≡ Tags.is_end bytes.now }
{
    match *bytes {
        [a, b, ..] => a == b'<' && b == b'/',
        _ => false,
    }
}

// A tag, from behind its `<`, if bytes are one.
fn begun_at<'a>(alloc: Global, bytes: &'a [u8]) -> Result<Option<RawTag<'a>>, NoMemory>
    ensures { IfOk result (λ o. option_map raw_tag o ≡ Tags.begun_at bytes.now) }
{
    match bytes.split_first() {
        Some((first, rest)) if *first == b'/' => match end_at(rest) {
            Some(name) => Ok(Some(RawTag::End(name))),
            None => Ok(None),
        },
        Some(_) => match start_at(alloc, bytes)? {
            Some(tag) => Ok(Some(RawTag::Start(tag))),
            None => Ok(None),
        },
        None => Ok(None),
    }
}

// A tag, its references in quotes aside, if bytes are one.
fn tag_at<'a>(alloc: Global, bytes: &'a [u8]) -> Result<Option<RawTag<'a>>, NoMemory>
    ensures { IfOk result (λ o. option_map raw_tag o ≡ Tags.tag_at bytes.now) }
{
    match bytes.split_first() {
        Some((first, rest)) if *first == b'<' => begun_at(alloc, rest),
        _ => Ok(None),
    }
}

/// The quote that is open after a byte of a tag, where `quote` is the one that was open before it.
pub fn quote_behind(quote: Option<u8>, b: u8) -> Option<u8>
    ensures { result ≡ Tags.quote_behind quote b }
{
    match quote {
        None if is_quote(b) => Some(b),
        None => None,
        Some(q) if q == b => None,
        Some(q) => Some(q),
    }
}

// Whether some reference inside quotes has an unknown name.
#[tactic(auto, using(crate::proofs::Ampersands::no_unknown_quoted))]
fn has_unknown_quoted(bytes: &[u8]) -> bool
    ensures { result ≡ Tags.has_unknown_quoted None bytes.now }
{
    if !has_ampersand(bytes) {
        return false;
    }
    let mut quote = None;
    for (i, b) in bytes.iter().enumerate() {
        if quote.is_some() && *b == b'&' && begins_unknown(&bytes[i + 1..]) {
            return true;
        }
        quote = quote_behind(quote, *b);
    }
    false
}

/// Reads a tag off its whole bytes, from its `<` to its `>` (XML 1.0, section 3.1): a start tag, the tag of an empty
/// element, or an end tag. Names stay as they are spelled.
///
/// `Restricted` comes exactly where the tag is no end tag and a reference inside quotes has an unknown name, whatever
/// else is wrong with it. `NotWellFormed` comes exactly where that isn't so and the bytes are no tag: what is there
/// isn't formed as XML has it, a value has a `<`, a bad reference or a character that is none of XML's, or two
/// attributes have one spelled name.
#[tactic(auto, unfolding(crate::specs::Tags::tag_of))]
pub fn read_tag<'a>(alloc: Global, bytes: &'a [u8]) -> Result<RawTag<'a>, TagFault>
    ensures ok { IfOk result (λ t. tag_of bytes.now ≡ Ok (raw_tag t)) }
    ensures refused { IfErr result (λ e. IfRefused e (λ why. tag_of bytes.now ≡ Err why)) }
{
    if !is_end(bytes) && has_unknown_quoted(bytes) {
        return Err(TagFault::Refused(TagWhy::Restricted));
    }
    match tag_at(alloc, bytes)? {
        Some(tag) => Ok(tag),
        None => Err(TagFault::Refused(TagWhy::NotWellFormed)),
    }
}

/// Reads an end tag off its whole bytes, from its `</` to its `>` (XML 1.0, section 3.1, ETag), and answers its name as
/// it is spelled, borrowed from them. `None` comes exactly where the bytes are no end tag.
pub fn read_end_tag(bytes: &[u8]) -> Option<&str>
    ensures { option_map (λ name. name.now) result ≡ end_name (tag_of bytes.now) }
{
    if !is_end(bytes) {
        return None;
    }
    end_at(&bytes[2..])
}
