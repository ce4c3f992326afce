//! The pieces of a line.
ghost use Rattle.std.specs.Prelude.{◌≡◌, ◌∷◌, ◌++◌, OnOk, decimal};
ghost use Rattle.std.specs.List.{list_all};
ghost use Rattle.hex.specs.Hex.{encode_lower};
ghost use Rattle.cmd_journal.specs.Texts.{is_shown, plain_byte, plain_field};

use base_io::{Bytes, NoMemory};
use hex::encode;
use itoa::Buffer;
use std::alloc::Global;

/// Adds a number.
pub fn append_number(out: &mut Bytes, n: u64) -> Result<(), NoMemory>
    ensures { OnOk result (out.new.items ≡ out.old.items ++ decimal n) }
{
    let mut buffer = Buffer::new();
    out.append(buffer.format(n).as_bytes())
}

/// Adds a space and a number.
pub fn append_number_field(out: &mut Bytes, n: u64) -> Result<(), NoMemory>
    ensures { OnOk result (out.new.items ≡ out.old.items ++ 32 ∷ decimal n) }
{
    out.append(b" ")?;
    append_number(out, n)
}

/// Adds a space and a field.
pub fn append_field(out: &mut Bytes, field: &str) -> Result<(), NoMemory>
    ensures { OnOk result (out.new.items ≡ out.old.items ++ 32 ∷ field.now) }
{
    out.append(b" ")?;
    out.append(field.as_bytes())
}

/// Adds a space and two hexadecimal digits in lower case for each byte.
pub fn append_hex_field(alloc: Global, out: &mut Bytes, bytes: &[u8]) -> Result<(), NoMemory>
    ensures { OnOk result (out.new.items ≡ out.old.items ++ 32 ∷ encode_lower bytes.now) }
{
    let digits = encode(alloc, bytes)?;
    append_field(out, digits.as_str())
}

fn is_shown(bytes: &[u8]) -> bool
    ensures { result ≡ list_all is_shown bytes.now }
{
    bytes.iter().all(|b| *b >= 32)
}

fn plain_byte(b: u8) -> u8
    ensures { result ≡ plain_byte b }
{
    if b < 32 { b' ' } else { b }
}

fn append_plain_bytes(out: &mut Bytes, bytes: &[u8]) -> Result<(), NoMemory>
    ensures { OnOk result (out.new.items ≡ out.old.items ++ plain_field bytes.now) }
{
    for b in bytes {
        out.append(&[plain_byte(*b)])?;
    }
    Ok(())
}

/// Adds a space and a field that a peer chose, with a space for each character below U+20, so that a peer writes no line
/// of its own.
#[tactic(auto, using(crate::proofs::PlainFields::plain_field_shown))]
pub fn append_plain_field(out: &mut Bytes, field: &str) -> Result<(), NoMemory>
    ensures { OnOk result (out.new.items ≡ out.old.items ++ 32 ∷ plain_field field.now) }
{
    let bytes = field.as_bytes();
    if is_shown(bytes) {
        return append_field(out, field);
    }
    out.append(b" ")?;
    append_plain_bytes(out, bytes)
}
