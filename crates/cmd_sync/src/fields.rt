//! The fields of a line, each read and judged.
ghost use Rattle.std.specs.Prelude.{◌≡◌, ◌==◌, ◌&&◌, not, length, IfOk};
ghost use Rattle.std.specs.List.{list_all};
ghost use Rattle.cmd_schedule.specs.Reading.{last_field, next_field, not_empty, number_within, rest_field};
ghost use Rattle.cmd_sync.specs.Gives.{Gives, cut_seen, left};
ghost use Rattle.cmd_sync.specs.ScriptReading.{address_in};
ghost use Rattle.cmd_sync.specs.Scripts.{is_account, is_password, is_password_byte, is_resource};

use crate::script_fault::{LineFault, wants};
use base_io::NoMemory;
use cmd_schedule::{LineWhy, cut_word, read_number};
use im_jid::{Jid, JidFault, resource_in_normal_form};
use std::alloc::Global;

/// A field that others follow, and what follows the space behind it.
pub fn next_field(fields: Option<&str>) -> Result<(&str, Option<&str>), LineFault>
    ensures { Gives cut_seen result (next_field (left fields.entry)) }
{
    match fields {
        None => Err(LineFault::Reason(LineWhy::Shape)),
        Some(text) => {
            let (front, rest) = cut_word(text);
            if front.is_empty() {
                return Err(LineFault::Reason(LineWhy::Shape));
            }
            Ok((front, rest))
        }
    }
}

/// The last field: all that is left, which has bytes and no space.
pub fn last_field(fields: Option<&str>) -> Result<&str, LineFault>
    ensures { Gives (λ x. x.now) result (last_field (left fields.entry)) }
{
    match fields {
        None => Err(LineFault::Reason(LineWhy::Shape)),
        Some(text) => {
            if !is_word(text) {
                return Err(LineFault::Reason(LineWhy::Shape));
            }
            Ok(text)
        }
    }
}

fn is_word(text: &str) -> bool
    ensures { result ≡ (not_empty text.now && list_all (λ b. not (b == 32)) text.now) }
{
    !text.is_empty() && lacks_spaces(text)
}

fn lacks_spaces(text: &str) -> bool
    ensures { result ≡ list_all (λ b. not (b == 32)) text.now }
{
    text.bytes().all(|b| b != b' ')
}

/// The rest of the line as it is, which has bytes.
pub fn rest_field(fields: Option<&str>) -> Result<&str, LineFault>
    ensures { Gives (λ x. x.now) result (rest_field (left fields.entry)) }
{
    match fields {
        None => Err(LineFault::Reason(LineWhy::Shape)),
        Some(text) => {
            if text.is_empty() {
                return Err(LineFault::Reason(LineWhy::Shape));
            }
            Ok(text)
        }
    }
}

fn is_password_byte(b: u8) -> bool
    ensures { result ≡ is_password_byte b }
{
    33 <= b && b <= 126
}

fn are_password_bytes(bytes: &[u8]) -> bool
    ensures { result ≡ list_all is_password_byte bytes.now }
{
    bytes.iter().all(|b| is_password_byte(*b))
}

/// Whether a text is 1 to 100 characters of printable ASCII, none of them a space.
pub fn is_password(text: &str) -> bool
    ensures { result ≡ is_password text.now }
{
    1 <= text.len() && text.len() <= 100 && are_password_bytes(text.as_bytes())
}

/// A decimal number within bounds, without leading zeros.
pub fn number_within(least: u32, most: u32, field: &str) -> Result<u32, LineFault>
    ensures { Gives (λ n. n) result (number_within least most field.now) }
{
    match read_number(u64::from(least), u64::from(most), field) {
        Ok(number) => Ok(number as u32),
        Err(why) => Err(LineFault::Reason(why)),
    }
}

/// The address that a field spells, in normal form (RFC 7622).
pub fn address_in(alloc: Global, field: &str) -> Result<Jid, LineFault>
    ensures { Gives (λ address. address) result (address_in field.now) }
{
    match Jid::parse(alloc, field) {
        Ok(address) => Ok(address),
        Err(JidFault::NoMemory) => Err(LineFault::NoMemory),
        Err(_) => Err(LineFault::Reason(LineWhy::Name)),
    }
}

/// Whether an address is bare and has a local part.
pub fn is_account(address: &Jid) -> bool
    ensures { result ≡ is_account address.now }
{
    address.local().is_some() && address.resource().is_none()
}

/// Whether a resource has a normal form (RFC 7622, section 3.4).
pub fn is_resource(alloc: Global, field: &str) -> Result<bool, NoMemory>
    ensures { IfOk result (λ is. is ≡ is_resource field.now) }
{
    match resource_in_normal_form(alloc, field) {
        Ok(_) => Ok(true),
        Err(JidFault::NoMemory) => Err(NoMemory),
        Err(_) => Ok(false),
    }
}
