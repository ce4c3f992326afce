//! Nonces and salts (RFC 5802, sections 5.1 and 7).
ghost use Rattle.std.specs.Prelude.{◌≡◌, true};
ghost use Rattle.std.specs.List.{list_all};
ghost use Rattle.std.specs.Str.{IsUtf8};
ghost use Rattle.auth_scram.specs.Classes.{is_printable};
ghost use Rattle.auth_scram.specs.Exchange.{added_nonce, nonce_of, salt_of};
ghost use Rattle.auth_scram.specs.Grammar.{is_nonce};

use crate::classes::is_printable;
use auth_primitives::digest;
use base64::engine::general_purpose::STANDARD;

/// Whether a text is a nonce: one or more printable characters of ASCII other than the comma and the space.
pub fn is_nonce(text: &str) -> bool
    ensures { result ≡ is_nonce text.now }
{
    let bytes = text.as_bytes();
    bytes.len() > 0 && are_printable(bytes)
}

fn are_printable(bytes: &[u8]) -> bool
    ensures { result ≡ list_all is_printable bytes.now }
{
    bytes.iter().all(|byte| is_printable(*byte))
}

/// The nonce that an end adds: the base64 of 18 bytes, which were drawn for it. It takes no memory.
pub fn nonce_of(drawn: &[u8; 18]) -> [u8; 24]
    ensures nonce { result ≡ nonce_of drawn.now }
    ensures within { is_nonce result ≡ true }
    ensures text { IsUtf8 result }
{
    let mut text = [0u8; 24];
    match STANDARD.encode_slice(drawn, &mut text) {
        Ok(_) => text,
        Err(_) => unreachable!(),
    }
}

/// The nonce that an end adds on a connection: that of the first 18 of the bytes which were drawn for it. It takes no
/// memory.
pub fn added_nonce(entropy: &[u8; 24]) -> [u8; 24]
    ensures nonce { result ≡ added_nonce entropy.now }
    ensures within { is_nonce result ≡ true }
    ensures text { IsUtf8 result }
{
    let mut drawn = [0u8; 18];
    drawn.copy_from_slice(&entropy[..18]);
    nonce_of(&drawn)
}

/// The salt of an account: the first 16 bytes of the SHA-256 of its bare address. It is known to who knows the address,
/// so that a server's run is decided by its inputs (RFC 5802 leaves salts to the server). It takes no memory.
pub fn salt_of(bare: &str) -> [u8; 16]
    ensures { result ≡ salt_of bare.now }
{
    let hash = digest(bare.as_bytes());
    let mut salt = [0u8; 16];
    salt.copy_from_slice(&hash[..16]);
    salt
}
