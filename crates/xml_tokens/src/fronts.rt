//! A slice's front of bytes of a class, and what is behind it.
ghost use Rattle.std.specs.Prelude.{◌≡◌, ◌<◌, ◌≤◌, ◌==◌, true, not, length};
ghost use Rattle.std.specs.Char.{is_ascii_lowercase};
ghost use Rattle.std.specs.List.{list_all, prefix_len};
ghost use Rattle.xml_tokens.specs.Characters;
ghost use Rattle.xml_tokens.specs.Fronts.{front, following};
ghost use Rattle.xml_tokens.specs.Spelling;
ghost use Rattle.xml_tokens.specs.Tags;
ghost use Rattle.xml_tokens.specs.Tags.{is_empty};
ghost use Rattle.xml_tokens.specs.Values;

use crate::characters::{is_ascii_name_byte, is_name_byte, is_white};
use crate::written::Written;
use memchr::memchr;

/// So many bytes are looked at together, by vector code, before they are looked at one by one.
const AT_ONCE: usize = 64;

/// Vector code takes a multiple of so many bytes. What is left over is looked at one by one.
pub(crate) const LANES: usize = 8;

fn name_len(bytes: &[u8]) -> usize
    ensures { result ≡ prefix_len Characters.is_name_byte bytes.now }
{
    bytes.iter().take_while(|b| is_name_byte(**b)).count()
}

// The bytes that go on a name, and the rest.
#[tactic(auto, using(crate::proofs::Splits::take_prefix, crate::proofs::Splits::drop_prefix, crate::proofs::Splits::prefix_within))]
pub(crate) fn split_name_bytes(bytes: &[u8]) -> (&[u8], &[u8])
    ensures front { result.0.now ≡ front Characters.is_name_byte bytes.now }
    ensures following { result.1.now ≡ following Characters.is_name_byte bytes.now }
{
    bytes.split_at(name_len(bytes))
}

fn white_len(bytes: &[u8]) -> usize
    ensures { result ≡ prefix_len Characters.is_white bytes.now }
{
    bytes.iter().take_while(|b| is_white(**b)).count()
}

// The white space, and the rest.
#[tactic(auto, using(crate::proofs::Splits::take_prefix, crate::proofs::Splits::drop_prefix, crate::proofs::Splits::prefix_within))]
pub(crate) fn split_white(bytes: &[u8]) -> (&[u8], &[u8])
    ensures front { result.0.now ≡ front Characters.is_white bytes.now }
    ensures following { result.1.now ≡ following Characters.is_white bytes.now }
{
    bytes.split_at(white_len(bytes))
}

fn until_len(bytes: &[u8], end: u8) -> usize
    ensures { result ≡ prefix_len (λ b. not (b == end)) bytes.now }
{
    match memchr(end, bytes) {
        Some(at) => at,
        None => bytes.len(),
    }
}

// The bytes before the first that is `end`, and the rest from there.
#[tactic(auto, using(crate::proofs::Splits::take_prefix, crate::proofs::Splits::drop_prefix, crate::proofs::Splits::prefix_within))]
pub(crate) fn split_until(bytes: &[u8], end: u8) -> (&[u8], &[u8])
    ensures front { result.0.now ≡ front (λ b. not (b == end)) bytes.now }
    ensures following { result.1.now ≡ following (λ b. not (b == end)) bytes.now }
{
    bytes.split_at(until_len(bytes, end))
}

fn colon_len(bytes: &[u8]) -> usize
    ensures { result ≡ prefix_len (λ b. not (b == 58)) bytes.now }
{
    bytes.iter().take_while(|b| **b != b':').count()
}

// The bytes before the first colon, and the rest from there. Names are short: a search of many bytes at once gains nothing.
#[tactic(auto, using(crate::proofs::Splits::take_prefix, crate::proofs::Splits::drop_prefix, crate::proofs::Splits::prefix_within))]
pub(crate) fn split_colon(bytes: &[u8]) -> (&[u8], &[u8])
    ensures front { result.0.now ≡ front (λ b. not (b == 58)) bytes.now }
    ensures following { result.1.now ≡ following (λ b. not (b == 58)) bytes.now }
{
    bytes.split_at(colon_len(bytes))
}

fn is_plain(b: u8) -> bool
    ensures { result ≡ Values.is_plain b }
{
    b != b'&' && b != b'<' && b != b'\r' && b != b'\t' && b != b'\n'
}

fn plain_len(bytes: &[u8]) -> usize
    ensures { result ≡ prefix_len Values.is_plain bytes.now }
{
    bytes.iter().take_while(|b| is_plain(**b)).count()
}

// The bytes that a value says as they are, and the rest.
#[tactic(auto, using(crate::proofs::Splits::take_prefix, crate::proofs::Splits::drop_prefix, crate::proofs::Splits::prefix_within))]
pub(crate) fn split_plain(bytes: &[u8]) -> (&[u8], &[u8])
    ensures front { result.0.now ≡ front Values.is_plain bytes.now }
    ensures following { result.1.now ≡ following Values.is_plain bytes.now }
{
    bytes.split_at(plain_len(bytes))
}

fn is_qualified_byte(b: u8) -> bool
    ensures { result ≡ Tags.is_qualified_byte b }
{
    is_name_byte(b) || b == b':'
}

fn qualified_len(bytes: &[u8]) -> usize
    ensures { result ≡ prefix_len Tags.is_qualified_byte bytes.now }
{
    bytes.iter().take_while(|b| is_qualified_byte(**b)).count()
}

// The bytes that go on a name or are a colon, and the rest.
#[tactic(auto, using(crate::proofs::Splits::take_prefix, crate::proofs::Splits::drop_prefix, crate::proofs::Splits::prefix_within))]
pub(crate) fn split_qualified(bytes: &[u8]) -> (&[u8], &[u8])
    ensures front { result.0.now ≡ front Tags.is_qualified_byte bytes.now }
    ensures following { result.1.now ≡ following Tags.is_qualified_byte bytes.now }
{
    bytes.split_at(qualified_len(bytes))
}

#[tactic(auto, using(crate::proofs::Splits::prefix_within))]
fn letters_len(bytes: &[u8]) -> usize
    ensures len { result ≡ prefix_len is_ascii_lowercase bytes.now }
    ensures bound { result ≤ length bytes.now }
{
    bytes.iter().take_while(|b| b.is_ascii_lowercase()).count()
}

#[tactic(auto, using(crate::proofs::Splits::prefix_within))]
fn any_ascii_name_len(bytes: &[u8]) -> usize
    ensures len { result ≡ prefix_len Characters.is_ascii_name_byte bytes.now }
    ensures bound { result ≤ length bytes.now }
{
    bytes.iter().take_while(|b| is_ascii_name_byte(**b)).count()
}

// Most names are small letters alone, which one test tells.
fn ascii_name_len(bytes: &[u8]) -> usize
    ensures { result ≡ prefix_len Characters.is_ascii_name_byte bytes.now }
{
    let letters = letters_len(bytes);
    letters + any_ascii_name_len(&bytes[letters..])
}

// The bytes of ASCII that go on a name, and the rest.
#[tactic(auto, using(crate::proofs::Splits::take_prefix, crate::proofs::Splits::drop_prefix, crate::proofs::Splits::prefix_within))]
pub(crate) fn split_ascii_name(bytes: &[u8]) -> (&[u8], &[u8])
    ensures front { result.0.now ≡ front Characters.is_ascii_name_byte bytes.now }
    ensures following { result.1.now ≡ following Characters.is_ascii_name_byte bytes.now }
{
    bytes.split_at(ascii_name_len(bytes))
}

// Whether no byte at the front goes on a name or is a colon, where none of ASCII goes on one.
#[tactic(auto, using(crate::proofs::AsciiNames::goes_on_no_name))]
pub(crate) fn goes_no_further(bytes: &[u8]) -> bool
    requires { is_empty (front Characters.is_ascii_name_byte bytes.now) ≡ true }
    ensures { result ≡ is_empty (front Tags.is_qualified_byte bytes.now) }
{
    match bytes.split_first() {
        Some((first, _)) => *first < 128 && *first != b':',
        None => true,
    }
}

// Whether a text is written with a byte as it is.
fn is_text_plain(b: u8) -> bool
    ensures { result ≡ Spelling.is_text_plain b }
{
    b != b'&' && b != b'<' && b != b'>' && b != b'\r'
}

#[tactic(auto, using(crate::proofs::Splits::prefix_within, crate::proofs::Splits::prefix_of_all))]
fn text_plain_near(bytes: &[u8]) -> usize
    ensures len { result ≡ prefix_len Spelling.is_text_plain bytes.now }
    ensures bound { result ≤ length bytes.now }
{
    if bytes.len() < AT_ONCE && are_text_plain(bytes) {
        return bytes.len();
    }
    bytes.iter().take_while(|b| is_text_plain(**b)).count()
}

fn text_plain_len(bytes: &[u8]) -> usize
    ensures { result ≡ prefix_len Spelling.is_text_plain bytes.now }
{
    let mut done = 0;
    while bytes.len() - done >= AT_ONCE && are_text_plain(&bytes[done..done + AT_ONCE]) {
        done += AT_ONCE;
    }
    done + text_plain_near(&bytes[done..])
}

// The bytes that a text is written with as they are, and the rest.
#[tactic(auto, using(crate::proofs::Splits::take_prefix, crate::proofs::Splits::drop_prefix, crate::proofs::Splits::prefix_within))]
fn split_text_plain(bytes: &[u8]) -> (&[u8], &[u8])
    ensures front { result.0.now ≡ front Spelling.is_text_plain bytes.now }
    ensures following { result.1.now ≡ following Spelling.is_text_plain bytes.now }
{
    bytes.split_at(text_plain_len(bytes))
}

// Whether a value is written with a byte as it is.
fn is_value_plain(b: u8) -> bool
    ensures { result ≡ Spelling.is_value_plain b }
{
    is_text_plain(b) && b != b'\'' && b != b'\t' && b != b'\n'
}

#[tactic(auto, using(crate::proofs::Splits::prefix_within, crate::proofs::Splits::prefix_of_all))]
fn value_plain_near(bytes: &[u8]) -> usize
    ensures len { result ≡ prefix_len Spelling.is_value_plain bytes.now }
    ensures bound { result ≤ length bytes.now }
{
    if bytes.len() < AT_ONCE && are_value_plain(bytes) {
        return bytes.len();
    }
    bytes.iter().take_while(|b| is_value_plain(**b)).count()
}

fn value_plain_len(bytes: &[u8]) -> usize
    ensures { result ≡ prefix_len Spelling.is_value_plain bytes.now }
{
    let mut done = 0;
    while bytes.len() - done >= AT_ONCE && are_value_plain(&bytes[done..done + AT_ONCE]) {
        done += AT_ONCE;
    }
    done + value_plain_near(&bytes[done..])
}

// The bytes that a value is written with as they are, and the rest.
#[tactic(auto, using(crate::proofs::Splits::take_prefix, crate::proofs::Splits::drop_prefix, crate::proofs::Splits::prefix_within))]
fn split_value_plain(bytes: &[u8]) -> (&[u8], &[u8])
    ensures front { result.0.now ≡ front Spelling.is_value_plain bytes.now }
    ensures following { result.1.now ≡ following Spelling.is_value_plain bytes.now }
{
    bytes.split_at(value_plain_len(bytes))
}

// The bytes that are written as they are, and the rest.
pub(crate) fn split_plain_as(form: Written, bytes: &[u8]) -> (&[u8], &[u8])
    ensures front { result.0.now ≡ front (Spelling.is_plain_as form) bytes.now }
    ensures following { result.1.now ≡ following (Spelling.is_plain_as form) bytes.now }
{
    match form {
        Written::Text => split_text_plain(bytes),
        Written::Value => split_value_plain(bytes),
    }
}

// Whether each byte is one that a text is written with as it is.
#[tactic(auto, using(crate::proofs::Splits::all_in_parts, crate::proofs::Splits::all_after))]
fn are_text_plain(bytes: &[u8]) -> bool
    ensures { result ≡ list_all Spelling.is_text_plain bytes.now }
{
    let (front, back) = bytes.split_at(bytes.len() - bytes.len() % LANES);
    all_text_plain(front) && each_text_plain(back)
}

// The same, one by one.
fn each_text_plain(bytes: &[u8]) -> bool
    ensures { result ≡ list_all Spelling.is_text_plain bytes.now }
{
    bytes.iter().all(|b| is_text_plain(*b))
}

// Nothing for a byte that a text is written with as it is, and something for another.
fn text_mark(b: u8) -> u8
    ensures { (result == 0) ≡ Spelling.is_text_plain b }
{
    if is_text_plain(b) { 0 } else { 1 }
}

// The same. No byte ends the loop, and what they tell is joined as numbers, so that it becomes vector code.
fn all_text_plain(bytes: &[u8]) -> bool
    ensures { result ≡ list_all Spelling.is_text_plain bytes.now }
{
    let mut marks = 0u8;
    for b in bytes {
        marks |= text_mark(*b);
    }
    marks == 0
}

// Whether each byte is one that a value is written with as it is.
#[tactic(auto, using(crate::proofs::Splits::all_in_parts, crate::proofs::Splits::all_after))]
fn are_value_plain(bytes: &[u8]) -> bool
    ensures { result ≡ list_all Spelling.is_value_plain bytes.now }
{
    let (front, back) = bytes.split_at(bytes.len() - bytes.len() % LANES);
    all_value_plain(front) && each_value_plain(back)
}

// The same, one by one.
fn each_value_plain(bytes: &[u8]) -> bool
    ensures { result ≡ list_all Spelling.is_value_plain bytes.now }
{
    bytes.iter().all(|b| is_value_plain(*b))
}

// Nothing for a byte that a value is written with as it is, and something for another.
fn value_mark(b: u8) -> u8
    ensures { (result == 0) ≡ Spelling.is_value_plain b }
{
    if is_value_plain(b) { 0 } else { 1 }
}

// The same. No byte ends the loop, and what they tell is joined as numbers, so that it becomes vector code.
fn all_value_plain(bytes: &[u8]) -> bool
    ensures { result ≡ list_all Spelling.is_value_plain bytes.now }
{
    let mut marks = 0u8;
    for b in bytes {
        marks |= value_mark(*b);
    }
    marks == 0
}
