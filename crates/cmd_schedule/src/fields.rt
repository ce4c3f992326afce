//! The fields of a line, each read and judged.
ghost use Rattle.std.specs.Prelude.{◌≡◌, ◌==◌, ◌&&◌, ◌||◌, not, chars};
ghost use Rattle.std.specs.List.{list_all};
ghost use Rattle.cmd_schedule.specs.Gives.{Gives, left, cut_seen};
ghost use Rattle.cmd_schedule.specs.Grammar.{is_name, is_text, is_lower, is_digit, is_text_character};
ghost use Rattle.cmd_schedule.specs.Reading.{cut_of, not_empty, next_field, last_field, rest_field};

use crate::fault::{LineFault, LineWhy, wants};

/// What precedes the first space, and what follows it where there is one.
pub fn cut_word(text: &str) -> (&str, Option<&str>)
    ensures { cut_of text.now ≡ cut_seen result }
{
    match text.split_once(' ') {
        Some((front, rest)) => (front, Some(rest)),
        None => (text, None),
    }
}

/// A field that others follow, and what follows the space behind it. `Shape` comes where there is none, or an empty one.
pub fn next_field(fields: Option<&str>) -> Result<(&str, Option<&str>), LineFault>
    ensures { Gives cut_seen result (next_field (left fields.entry)) }
{
    match fields {
        None => Err(LineFault::Reason(LineWhy::Shape)),
        Some(text) => {
            let (front, rest) = cut_word(text);
            if front.is_empty() {
                return Err(LineFault::Reason(LineWhy::Shape));
            }
            Ok((front, rest))
        }
    }
}

/// The last field: all that is left, which has bytes and no space. `Shape` comes for anything else.
pub fn last_field(fields: Option<&str>) -> Result<&str, LineFault>
    ensures { Gives (λ x. x.now) result (last_field (left fields.entry)) }
{
    match fields {
        None => Err(LineFault::Reason(LineWhy::Shape)),
        Some(text) => {
            if !is_word(text) {
                return Err(LineFault::Reason(LineWhy::Shape));
            }
            Ok(text)
        }
    }
}

fn is_word(text: &str) -> bool
    ensures { result ≡ (not_empty text.now && list_all (λ b. not (b == 32)) text.now) }
{
    !text.is_empty() && lacks_spaces(text)
}

fn lacks_spaces(text: &str) -> bool
    ensures { result ≡ list_all (λ b. not (b == 32)) text.now }
{
    text.bytes().all(|b| b != b' ')
}

/// The rest of the line as it is, which has bytes. `Shape` comes where nothing is left.
pub fn rest_field(fields: Option<&str>) -> Result<&str, LineFault>
    ensures { Gives (λ x. x.now) result (rest_field (left fields.entry)) }
{
    match fields {
        None => Err(LineFault::Reason(LineWhy::Shape)),
        Some(text) => {
            if text.is_empty() {
                return Err(LineFault::Reason(LineWhy::Shape));
            }
            Ok(text)
        }
    }
}

fn is_lower(c: u8) -> bool
    ensures { result ≡ is_lower c }
{
    b'a' <= c && c <= b'z'
}

/// Whether a byte is a decimal digit of ASCII: `0` to `9`.
pub fn is_digit(c: u8) -> bool
    ensures { result ≡ is_digit c }
{
    b'0' <= c && c <= b'9'
}

/// Whether a name is a lower-case letter and up to 31 lower-case letters or digits.
pub fn is_name(name: &str) -> bool
    ensures { result ≡ is_name name.now }
{
    match name.as_bytes() {
        [] => false,
        [first, rest @ ..] => is_lower(*first) && rest.len() <= 31 && are_name_bytes(rest),
    }
}

fn are_name_bytes(bytes: &[u8]) -> bool
    ensures { result ≡ list_all (λ c. is_lower c || is_digit c) bytes.now }
{
    bytes.iter().all(|c| is_lower(*c) || is_digit(*c))
}

fn is_text_character(c: char) -> bool
    ensures { result ≡ is_text_character c }
{
    matches!(c, '\u{20}'..='\u{D7FF}' | '\u{E000}'..='\u{FFFD}' | '\u{10000}'..='\u{10FFFF}')
}

/// Whether a text has 1 to 1,000 bytes, and only characters that are allowed.
pub fn is_text(text: &str) -> bool
    ensures { result ≡ is_text text.now }
{
    1 <= text.len() && text.len() <= 1000 && are_text_characters(text)
}

fn are_text_characters(text: &str) -> bool
    ensures { result ≡ list_all is_text_character (chars text.now) }
{
    text.chars().all(is_text_character)
}
