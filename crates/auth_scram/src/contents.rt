//! What the parts of a message stand for.
ghost use Rattle.std.specs.Prelude.{◌≡◌, min, IfOk};
ghost use Rattle.std.specs.Str.{IsUtf8};
ghost use Rattle.auth_primitives.specs.Canonical.{IsBase64};
ghost use Rattle.auth_scram.specs.Values.{base64_bytes, hash_of, most_told, name_of, value_of};

use base_io::{Bytes, NoMemory, Text};
use base64::DecodeAllocError;
use base64::engine::general_purpose::STANDARD;
use std::alloc::Global;

/// A text of bytes that are UTF-8.
pub(crate) fn text_of(alloc: Global, bytes: &[u8]) -> Result<Text, NoMemory>
    requires { IsUtf8 bytes.now }
    ensures { IfOk result (λ text. text ≡ bytes.now) }
{
    match str::from_utf8(bytes) {
        Ok(text) => Text::from_str(alloc, text),
        Err(_) => unreachable!(),
    }
}

/// The name that a `saslname` spells: `=2C` is a comma, `=3D` an equals sign.
pub(crate) fn name_of(alloc: Global, spelled: &[u8]) -> Result<Text, NoMemory>
    requires { IsUtf8 (name_of spelled.now) }
    ensures { IfOk result (λ name. name ≡ name_of spelled.now) }
{
    let name = unescaped(alloc, spelled)?;
    match String::from_utf8(name) {
        Ok(name) => Ok(Text::from(name)),
        Err(_) => unreachable!(),
    }
}

fn unescaped(alloc: Global, spelled: &[u8]) -> Result<Vec<u8>, NoMemory>
    ensures { IfOk result (λ name. name.items ≡ name_of spelled.now) }
{
    let mut name = Vec::new(alloc);
    name.reserve(spelled.len())?;
    let mut left: u8 = 0;
    for byte in spelled {
        match left {
            0 if *byte == b'=' => left = 2,
            0 => name.push(*byte)?,
            1 => {
                name.push(if *byte == b'C' { b',' } else { b'=' })?;
                left = 0;
            }
            _ => left = 1,
        }
    }
    Ok(name)
}

/// The value of decimal digits; what is above 4,294,967,295 is told as that.
pub(crate) fn count_of(digits: &[u8]) -> u32
    ensures { result ≡ min (value_of digits.now) most_told }
{
    let mut count: u32 = 0;
    for digit in digits {
        count = count
            .saturating_mul(10)
            .saturating_add(u32::from(digit.saturating_sub(b'0')));
    }
    count
}

/// The bytes of a base64 text.
pub(crate) fn base64_bytes(alloc: Global, text: &[u8]) -> Result<Bytes, NoMemory>
    requires { IsBase64 text.now }
    ensures { IfOk result (λ bytes. bytes.items ≡ base64_bytes text.now) }
{
    match STANDARD.decode(alloc, text) {
        Ok(bytes) => Bytes::from_slice(alloc, bytes.as_slice()),
        Err(DecodeAllocError::OutOfMemory) => Err(NoMemory),
        Err(DecodeAllocError::DecodeError(_)) => unreachable!(),
    }
}

/// The bytes of a base64 text, where they are 32. It takes no memory.
pub(crate) fn hash_of(text: &[u8]) -> Option<[u8; 32]>
    requires { IsBase64 text.now }
    ensures { result ≡ hash_of (base64_bytes text.now) }
{
    let mut hash = [0; 32];
    match STANDARD.decode_slice(text, &mut hash) {
        Ok(len) => { if len == 32 { Some(hash) } else { None } }
        Err(_) => None,
    }
}
