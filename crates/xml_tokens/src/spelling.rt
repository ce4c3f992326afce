//! Texts and values as they are written (XML 1.0, sections 2.4, 2.11, 3.3.3 and 4.6).
ghost use Rattle.std.specs.Prelude.{◌≡◌, ◌≢◌, ◌+◌, ◌-◌, ◌^◌, ◌<◌, ◌≤◌, ◌==◌, ◌++◌, false, Some, length, min, OnOk, OnErr};
ghost use Rattle.xml_tokens.specs.Spelling;
ghost use Rattle.xml_tokens.specs.Spelling.{spelled_text, spelled_value, value_byte, written};
ghost use Rattle.xml_tokens.specs.Values.{text};

use crate::fronts::split_plain_as;
use crate::written::Written;
use base_io::{Bytes, NoMemory};

// What a byte is written as, where that isn't the byte itself: in a value, and, but for the first three, in a text.
#[tactic(auto, unfolding(crate::specs::Spelling::text_byte, crate::specs::Spelling::value_byte))]
fn escape(b: u8) -> &'static [u8]
    requires { Spelling.is_value_plain b ≡ false }
    ensures { result.now ≡ value_byte b }
{
    match b {
        b'\'' => b"&apos;",
        b'\t' => b"&#x9;",
        b'\n' => b"&#xA;",
        b'&' => b"&amp;",
        b'<' => b"&lt;",
        b'>' => b"&gt;",
        _ => b"&#xD;",
    }
}

// Counts what comes before the first byte to escape, and that byte escaped, and answers what is left.
fn count_run<'a>(form: Written, len: usize, rest: &'a [u8]) -> (usize, &'a [u8])
    ensures len { min (result.0 + length (written form result.1.now)) (2 ^ 64 - 1) ≡ min (len + length (written form rest.now)) (2 ^ 64 - 1) }
    ensures shorter { length rest.now ≢ 0 → length result.1.now < length rest.now }
{
    let (plain, special) = split_plain_as(form, rest);
    let before = len.saturating_add(plain.len());
    match special.split_first() {
        Some((b, left)) => (before.saturating_add(escape(*b).len()), left),
        None => (before, special),
    }
}

// The length of a text or a value as it is written.
fn written_len(form: Written, bytes: &[u8]) -> usize
    ensures { result ≡ min (length (written form bytes.now)) (2 ^ 64 - 1) }
{
    let mut len = 0usize;
    let mut rest = bytes;
    while !rest.is_empty() {
        let (counted, left) = count_run(form, len, rest);
        len = counted;
        rest = left;
    }
    len
}

/// The length of a text as it is written, or 2^64 - 1 where that is less. It takes no memory.
pub fn spelled_text_len(bytes: &[u8]) -> usize
    ensures { result ≡ min (length (spelled_text bytes.now)) (2 ^ 64 - 1) }
{
    written_len(Written::Text, bytes)
}

/// The length of a value as it is written, or 2^64 - 1 where that is less. It takes no memory.
pub fn spelled_value_len(bytes: &[u8]) -> usize
    ensures { result ≡ min (length (spelled_value bytes.now)) (2 ^ 64 - 1) }
{
    written_len(Written::Value, bytes)
}

// Writes what comes before the first byte to escape, and that byte escaped, and answers what is left.
fn append_run<'a>(form: Written, out: &mut Bytes, rest: &'a [u8]) -> &'a [u8]
    requires { length (written form rest.now) ≤ out.old.spare }
    ensures items { out.new.items ++ written form result.now ≡ out.old.items ++ written form rest.now }
    ensures spare { out.old.spare + length (written form result.now)
        ≤ out.new.spare + length (written form rest.now) }
    ensures shorter { length rest.now ≢ 0 → length result.now < length rest.now }
{
    let (plain, special) = split_plain_as(form, rest);
    out.append_reserved(plain);
    match special.split_first() {
        Some((b, left)) => {
            out.append_reserved(escape(*b));
            left
        }
        None => special,
    }
}

// Writes a text or a value at the end and takes no memory.
fn append_written(form: Written, out: &mut Bytes, bytes: &[u8])
    requires { length (written form bytes.now) ≤ out.old.spare }
    ensures items { out.new.items ≡ out.old.items ++ written form bytes.now }
    ensures spare { out.old.spare ≤ out.new.spare + length (written form bytes.now) }
{
    let mut rest = bytes;
    while !rest.is_empty() {
        rest = append_run(form, out, rest);
    }
}

/// Writes a text at the end and takes no memory. It lowers `spare` by at most its written length.
pub fn append_text_reserved(out: &mut Bytes, bytes: &[u8])
    requires { length (spelled_text bytes.now) ≤ out.old.spare }
    ensures items { out.new.items ≡ out.old.items ++ spelled_text bytes.now }
    ensures spare { out.old.spare ≤ out.new.spare + length (spelled_text bytes.now) }
{
    append_written(Written::Text, out, bytes);
}

/// Writes a text at the end (XML 1.0, section 2.4: `&`, `<` and `>` escaped, and a carriage return as a character reference). A refusal leaves the bytes as they were.
pub fn append_text(out: &mut Bytes, bytes: &[u8]) -> Result<(), NoMemory>
    ensures ok { OnOk result (out.new.items ≡ out.old.items ++ spelled_text bytes.now) }
    ensures err { OnErr result (out.new.items ≡ out.old.items) }
{
    let len = spelled_text_len(bytes);
    if len == usize::MAX {
        return Err(NoMemory);
    }
    out.reserve(len)?;
    append_text_reserved(out, bytes);
    Ok(())
}

/// Writes a value at the end and takes no memory. It lowers `spare` by at most its written length.
pub fn append_value_reserved(out: &mut Bytes, bytes: &[u8])
    requires { length (spelled_value bytes.now) ≤ out.old.spare }
    ensures items { out.new.items ≡ out.old.items ++ spelled_value bytes.now }
    ensures spare { out.old.spare ≤ out.new.spare + length (spelled_value bytes.now) }
{
    append_written(Written::Value, out, bytes);
}

/// Writes a value at the end (XML 1.0, section 3.3.3: as a text, and `'`, the tab and the line feed escaped too). A refusal leaves the bytes as they were.
pub fn append_value(out: &mut Bytes, bytes: &[u8]) -> Result<(), NoMemory>
    ensures ok { OnOk result (out.new.items ≡ out.old.items ++ spelled_value bytes.now) }
    ensures err { OnErr result (out.new.items ≡ out.old.items) }
{
    let len = spelled_value_len(bytes);
    if len == usize::MAX {
        return Err(NoMemory);
    }
    out.reserve(len)?;
    append_value_reserved(out, bytes);
    Ok(())
}
