//! The parts of an address, each written in normal form at the end of a text (RFC 7622, sections 3.2 to 3.4).
ghost use Rattle.std.specs.Prelude.{◌≡◌, chars, string_bytes};
ghost use Rattle.std.specs.List.{list_all};
ghost use Rattle.std.specs.Option.{option_copied};
ghost use Rattle.im_jid.specs.Answers.{Answers, Appends};
ghost use Rattle.im_jid.specs.Cuts.{bare_of, resource_of, domain_start, local_of_bare, domain_of_bare};
ghost use Rattle.im_jid.specs.Forms.{fitting, is_local_byte, local_form, less_dot, whole_domain, domain_form, is_resource_char, resource_form};
ghost use Rattle.im_jid.specs.Normal.{local_front, resource_back};
ghost use Rattle.im_jid.specs.Plain.{is_plain_name, is_printable};
ghost use Rattle.std.specs.Prelude.{Some, false};

use crate::fault::JidFault;
use base_io::Text;
use idna::{AsciiDenyList, Errors, domain_to_ascii_cow};
use std::alloc::Global;
use unicode_normalization::to_nfc;

/// The most bytes that a part has in normal form.
const MOST_PART_BYTES: usize = 1023;

/// The bare text and the resource of an address.
pub fn split_resource(text: &str) -> (&str, Option<&str>)
    ensures bare { result.0.now ≡ bare_of text.now }
    ensures resource { option_copied result.1 ≡ resource_of text.now }
{
    match text.split_once('/') {
        Some((bare, resource)) => (bare, Some(resource)),
        None => (text, None),
    }
}

/// The local part and the domain of a bare text.
pub fn split_local(bare: &str) -> (Option<&str>, &str)
    ensures local { option_copied result.0 ≡ local_of_bare bare.now }
    ensures domain { result.1.now ≡ domain_of_bare bare.now }
{
    match bare.split_once('@') {
        Some((local, domain)) => (Some(local), domain),
        None => (None, bare),
    }
}

// Adds a part that is in normal form, where it isn't too long.
fn push_fitting(out: &mut String, part: &str) -> Result<(), JidFault>
    ensures { Appends (string_bytes out.old) (string_bytes out.new) result (fitting part.now) }
{
    if part.len() > MOST_PART_BYTES {
        return Err(JidFault::TooLong);
    }
    out.push_str(part)?;
    Ok(())
}

// Whether a byte may stand in a local part.
fn is_local_byte(byte: u8) -> bool
    ensures { result ≡ is_local_byte byte }
{
    match byte {
        b'"' | b'&' | b'\'' | b'/' | b':' | b'<' | b'>' | b'@' => false,
        _ => matches!(byte, 0x21..=0x7E),
    }
}

// Whether a text is a local part, but for its length.
fn is_local(given: &str) -> bool
    ensures { result ≡ list_all is_local_byte given.now }
{
    given.as_bytes().iter().all(|byte| is_local_byte(*byte))
}

// A text with room for `room` bytes, that is a local part in normal form.
fn local_with_room(alloc: Global, given: &str, room: usize) -> Result<String, JidFault>
    ensures { Answers string_bytes result (local_form given.now) }
{
    let mut out = String::with_capacity(alloc, room)?;
    if given.is_empty() {
        return Err(JidFault::Empty);
    }
    if !is_local(given) {
        return Err(JidFault::BadLocal);
    }
    if given.len() > MOST_PART_BYTES {
        return Err(JidFault::TooLong);
    }
    out.push_str(given)?;
    out.make_ascii_lowercase();
    Ok(out)
}

/// A text with room for `room` bytes, that is a local part in normal form with its `@`, and empty where there is no
/// local part.
pub fn local_and_at(alloc: Global, local: Option<&str>, room: usize) -> Result<String, JidFault>
    ensures { Answers string_bytes result (local_front (option_copied local.entry)) }
{
    match local {
        None => Ok(String::with_capacity(alloc, room)?),
        Some(given) => {
            let mut out = local_with_room(alloc, given, room)?;
            out.push('@')?;
            Ok(out)
        }
    }
}

// The name without one full stop at its end.
fn without_dot(given: &str) -> &str
    ensures { result.now ≡ less_dot given.now }
{
    match given.as_bytes() {
        [.., b'.'] => &given[..given.len() - 1],
        _ => given,
    }
}

// Whether the name has only lower-case letters, digits, full stops and single hyphens, and so is its ASCII form.
fn is_plain_name(name: &[u8]) -> bool
    ensures { result ≡ is_plain_name false name.now }
{
    let mut hyphen = false;
    for byte in name {
        match byte {
            b'a'..=b'z' | b'0'..=b'9' | b'.' => hyphen = false,
            b'-' if !hyphen => hyphen = true,
            _ => return false,
        }
    }
    true
}

// Adds an ASCII form of a domain.
fn push_ascii(out: &mut String, ascii: &str) -> Result<(), JidFault>
    ensures { Appends (string_bytes out.old) (string_bytes out.new) result (whole_domain (Some ascii.now)) }
{
    match ascii.as_bytes() {
        [] | [.., b'.'] => Err(JidFault::BadDomain),
        _ => push_fitting(out, ascii),
    }
}

/// Adds the domain in its ASCII form.
pub fn push_domain(alloc: Global, out: &mut String, given: &str) -> Result<(), JidFault>
    ensures { Appends (string_bytes out.old) (string_bytes out.new) result (domain_form given.now) }
{
    if given.is_empty() {
        return Err(JidFault::Empty);
    }
    let name = without_dot(given);
    if is_plain_name(name.as_bytes()) {
        return push_ascii(out, name);
    }
    match domain_to_ascii_cow(alloc, name.as_bytes(), AsciiDenyList::STD3) {
        Ok(ascii) => push_ascii(out, &ascii),
        Err(Errors::Invalid) => Err(JidFault::BadDomain),
        Err(Errors::OutOfMemory) => Err(JidFault::NoMemory),
    }
}

// Whether a character may stand in a resource.
fn is_resource_char(character: char) -> bool
    ensures { result ≡ is_resource_char character }
{
    !matches!(character, '\0'..='\x1F' | '\x7F'..='\u{9F}')
}

// Whether a text in form NFC is a resource, but for its length.
fn fits_resource(text: &str) -> bool
    ensures { result ≡ list_all is_resource_char (chars text.now) }
{
    text.chars().all(is_resource_char)
}

// Whether the text is printable ASCII and spaces, and so is its form NFC.
fn is_printable(text: &str) -> bool
    ensures { result ≡ list_all is_printable text.now }
{
    text.as_bytes()
        .iter()
        .all(|byte| matches!(byte, 0x20..=0x7E))
}

// Adds the resource in its form NFC.
fn push_resource(alloc: Global, out: &mut String, given: &str) -> Result<(), JidFault>
    ensures { Appends (string_bytes out.old) (string_bytes out.new) result (resource_form given.now) }
{
    if given.is_empty() {
        return Err(JidFault::Empty);
    }
    if is_printable(given) {
        return push_fitting(out, given);
    }
    let normal = to_nfc(alloc, given)?;
    if !fits_resource(normal.as_str()) {
        return Err(JidFault::BadResource);
    }
    push_fitting(out, normal.as_str())
}

/// Adds a `/` and the resource in its form NFC, where there is a resource.
pub fn push_slash_and_resource(
    alloc: Global,
    out: &mut String,
    resource: Option<&str>,
) -> Result<(), JidFault>
    ensures { Appends (string_bytes out.old) (string_bytes out.new) result (resource_back (option_copied resource.entry)) }
{
    match resource {
        None => Ok(()),
        Some(given) => {
            out.push('/')?;
            push_resource(alloc, out, given)
        }
    }
}

/// Where the domain of a bare text begins, in bytes.
pub fn domain_offset(bare: &str) -> usize
    ensures { result ≡ domain_start bare.now }
{
    let (local, _) = split_local(bare);
    match local {
        Some(local) => local.len() + 1,
        None => 0,
    }
}

/// A local part in normal form: printable ASCII without space and without `"&'/:<>@`, in lower case, of 1 to 1,023
/// bytes (RFC 7622, section 3.3). It is refused as `Jid::parse` refuses it.
pub fn local_in_normal_form(alloc: Global, given: &str) -> Result<Text, JidFault>
    ensures { Answers (λ text. text) result (local_form given.now) }
{
    Ok(Text::from(local_with_room(alloc, given, given.len())?))
}

/// A domain in normal form, its ASCII form (RFC 7622, section 3.2). It is refused as `Jid::parse` refuses it.
pub fn domain_in_normal_form(alloc: Global, given: &str) -> Result<Text, JidFault>
    ensures { Answers (λ text. text) result (domain_form given.now) }
{
    let mut out = String::with_capacity(alloc, given.len())?;
    push_domain(alloc, &mut out, given)?;
    Ok(Text::from(out))
}

/// A resource in normal form, its form NFC (RFC 7622, section 3.4). It is refused as `Jid::parse` refuses it.
pub fn resource_in_normal_form(alloc: Global, given: &str) -> Result<Text, JidFault>
    ensures { Answers (λ text. text) result (resource_form given.now) }
{
    let mut out = String::with_capacity(alloc, given.len())?;
    push_resource(alloc, &mut out, given)?;
    Ok(Text::from(out))
}
