//! Archive ids: the numbers of entries in 16 hexadecimal digits. XEP-0313 leaves the form of an id to the server.
ghost use Rattle.std.specs.Prelude.{◌≡◌, ◌≢◌, ℕ, ◌<◌, ◌≤◌, ◌^◌, IfOk, IfSome, IfNone};
ghost use Rattle.mam_archive.specs.Ids.{id_of, number_read};

use base_io::{NoMemory, Text, ascii_str};
use base_lemmas::{hex16, read_hex16};
use std::alloc::Global;

/// The archive id of an entry's number: its 16 hexadecimal digits, in lower case, the highest first.
pub fn id_text(number: u64) -> [u8; 16]
    ensures { result ≡ id_of number }
{
    hex16(number)
}

/// The archive id of an entry's number, as a text.
pub fn id_of_number(alloc: Global, number: u64) -> Result<Text, NoMemory>
    ensures { IfOk result (λ t. t ≡ id_of number) }
{
    Text::from_str(alloc, ascii_str(&id_text(number)))
}

/// The number whose archive id this is. `None` where it is the id of no entry: it hasn't 16 bytes, one of them is
/// no digit or is in upper case, or the number is 0.
#[tactic(auto, using(base_lemmas::proofs::HexDigits::hex16_of_same))]
pub fn number_of(id: &str) -> Option<u64>
    ensures value { result ≡ number_read id.now }
    ensures found { IfSome result (λ n. (1 ≤ n) × (id.now ≡ id_of n)) }
    ensures none { IfNone result ((n : ℕ) → 1 ≤ n → n < 2 ^ 64 → id.now ≢ id_of n) }
{
    let number = read_hex16(id)?;
    if number == 0 { None } else { Some(number) }
}
