//! The fields of a line, each read and judged.
ghost use Rattle.std.specs.Prelude.{◌≡◌, ◌==◌, ◌&&◌, not, length};
ghost use Rattle.std.specs.List.{list_all};
ghost use Rattle.cmd_journal.specs.AccountsFiles.{is_password, is_password_byte};
ghost use Rattle.cmd_journal.specs.Gives.{Gives, cut_seen, left};
ghost use Rattle.cmd_journal.specs.LineReading.{bytes_in, connection_in, entropy_in, is_digit, moment_in};
ghost use Rattle.cmd_schedule.specs.Reading.{last_field, next_field, not_empty, number_within};

use crate::event::LAST_CONNECTION;
use crate::fault::{LineFault, wants};
use base_io::Bytes;
use cmd_schedule::{LineWhy, cut_word, read_number};
use hex::{FromHexError, decode, decode_to_slice};
use im_stamp::LAST_MOMENT;
use std::alloc::Global;

/// A field that others follow, and what follows the space behind it.
pub fn next_field(fields: Option<&str>) -> Result<(&str, Option<&str>), LineFault>
    ensures { Gives cut_seen result (next_field (left fields.entry)) }
{
    match fields {
        None => Err(LineFault::Reason(LineWhy::Shape)),
        Some(text) => {
            let (front, rest) = cut_word(text);
            if front.is_empty() {
                return Err(LineFault::Reason(LineWhy::Shape));
            }
            Ok((front, rest))
        }
    }
}

/// The last field: all that is left, which has bytes and no space.
pub fn last_field(fields: Option<&str>) -> Result<&str, LineFault>
    ensures { Gives (λ x. x.now) result (last_field (left fields.entry)) }
{
    match fields {
        None => Err(LineFault::Reason(LineWhy::Shape)),
        Some(text) => {
            if !is_word(text) {
                return Err(LineFault::Reason(LineWhy::Shape));
            }
            Ok(text)
        }
    }
}

fn is_word(text: &str) -> bool
    ensures { result ≡ (not_empty text.now && list_all (λ b. not (b == 32)) text.now) }
{
    !text.is_empty() && lacks_spaces(text)
}

fn lacks_spaces(text: &str) -> bool
    ensures { result ≡ list_all (λ b. not (b == 32)) text.now }
{
    text.bytes().all(|b| b != b' ')
}

fn is_password_byte(b: u8) -> bool
    ensures { result ≡ is_password_byte b }
{
    33 <= b && b <= 126
}

fn are_password_bytes(bytes: &[u8]) -> bool
    ensures { result ≡ list_all is_password_byte bytes.now }
{
    bytes.iter().all(|b| is_password_byte(*b))
}

/// Whether a text is 1 to 100 characters of printable ASCII, none of them a space.
pub fn is_password(text: &str) -> bool
    ensures { result ≡ is_password text.now }
{
    1 <= text.len() && text.len() <= 100 && are_password_bytes(text.as_bytes())
}

/// A decimal number within bounds, without leading zeros.
pub fn number_within(least: u64, most: u64, field: &str) -> Result<u64, LineFault>
    ensures { Gives (λ n. n) result (number_within least most field.now) }
{
    match read_number(least, most, field) {
        Ok(number) => Ok(number),
        Err(why) => Err(LineFault::Reason(why)),
    }
}

/// The number of a connection.
pub fn connection_in(field: &str) -> Result<u64, LineFault>
    ensures { Gives (λ n. n) result (connection_in field.now) }
{
    number_within(1, LAST_CONNECTION, field)
}

/// A moment, in milliseconds since 1970, that a stamp can tell.
pub fn moment_in(field: &str) -> Result<u64, LineFault>
    ensures { Gives (λ n. n) result (moment_in field.now) }
{
    number_within(0, LAST_MOMENT, field)
}

fn is_digit(c: u8) -> bool
    ensures { result ≡ is_digit c }
{
    matches!(c, b'0'..=b'9' | b'a'..=b'f')
}

fn are_digits(bytes: &[u8]) -> bool
    ensures { result ≡ list_all is_digit bytes.now }
{
    bytes.iter().all(|c| is_digit(*c))
}

/// The bytes that pairs of hexadecimal digits in lower case spell.
#[tactic(auto, unfolding(crate::specs::LineReading::bytes_in))]
pub fn bytes_in(alloc: Global, field: &str) -> Result<Bytes, LineFault>
    ensures { Gives (λ bytes. bytes.items) result (bytes_in field.now) }
{
    let digits = field.as_bytes();
    wants(are_digits(digits), LineWhy::Text)?;
    match decode(alloc, digits) {
        Ok(bytes) => Ok(Bytes::from(bytes)),
        Err(FromHexError::OutOfMemory) => Err(LineFault::NoMemory),
        Err(_) => Err(LineFault::Reason(LineWhy::Text)),
    }
}

/// The 24 bytes that pairs of hexadecimal digits in lower case spell.
#[tactic(auto, unfolding(crate::specs::LineReading::entropy_in))]
pub fn entropy_in(field: &str) -> Result<[u8; 24], LineFault>
    ensures { Gives (λ entropy. entropy) result (entropy_in field.now) }
{
    let digits = field.as_bytes();
    wants(are_digits(digits), LineWhy::Text)?;
    let mut entropy = [0u8; 24];
    match decode_to_slice(digits, &mut entropy) {
        Ok(()) => Ok(entropy),
        Err(_) => Err(LineFault::Reason(LineWhy::Text)),
    }
}
