//! The addresses (RFC 7622) and origin ids (XEP-0359) that a schedule's names make.
ghost use Rattle.std.specs.Prelude.{◌≡◌, ◌∷◌, ◌++◌, string_bytes, IfOk, OnOk};
ghost use Rattle.cmd_report.specs.Addresses.{bare_address, full_address, origin_of};

use base_io::{NoMemory, Text};
use itoa::Buffer;
use std::alloc::Global;

/// The domain of every account.
pub const DOMAIN: &str = "chat.example";

// The characters of a bare address, with room for so many more bytes.
fn bare_characters(alloc: Global, account: &str, room: usize) -> Result<String, NoMemory>
    ensures { IfOk result (λ address. string_bytes address ≡ bare_address account.now) }
{
    let size = account.len().saturating_add(1).saturating_add(DOMAIN.len());
    let mut address = String::with_capacity(alloc, size.saturating_add(room))?;
    address.push_str(account)?;
    address.push_str("@")?;
    address.push_str(DOMAIN)?;
    Ok(address)
}

/// An account's bare address.
pub fn bare_address(alloc: Global, account: &str) -> Result<Text, NoMemory>
    ensures { IfOk result (λ t. t ≡ bare_address account.now) }
{
    Ok(Text::from(bare_characters(alloc, account, 0)?))
}

/// A device's full address.
pub fn full_address(alloc: Global, account: &str, device: &str) -> Result<Text, NoMemory>
    ensures { IfOk result (λ t. t ≡ full_address account.now device.now) }
{
    let room = device.len().saturating_add(1);
    let mut address = bare_characters(alloc, account, room)?;
    address.push_str("/")?;
    address.push_str(device)?;
    Ok(Text::from(address))
}

fn push_part(origin: &mut String, part: &str) -> Result<(), NoMemory>
    ensures { OnOk result (string_bytes origin.new ≡ string_bytes origin.old ++ 46 ∷ part.now) }
{
    origin.push_str(".")?;
    origin.push_str(part)?;
    Ok(())
}

/// The origin id of a device's message in an epoch.
pub fn origin_of(alloc: Global, device: &str, epoch: u64, number: u64) -> Result<Text, NoMemory>
    ensures { IfOk result (λ t. t ≡ origin_of device.now epoch number) }
{
    let mut epoch_buffer = Buffer::new();
    let epoch_digits = epoch_buffer.format(epoch);
    let mut number_buffer = Buffer::new();
    let number_digits = number_buffer.format(number);
    let digits = epoch_digits.len().saturating_add(number_digits.len());
    let size = device.len().saturating_add(2).saturating_add(digits);
    let mut origin = String::with_capacity(alloc, size)?;
    origin.push_str(device)?;
    push_part(&mut origin, epoch_digits)?;
    push_part(&mut origin, number_digits)?;
    Ok(Text::from(origin))
}
