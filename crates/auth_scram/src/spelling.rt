//! The messages as they are written (RFC 5802, section 7).
ghost use Rattle.std.specs.Prelude.{◌≡◌, ◌++◌, IfOk};
ghost use Rattle.auth_scram.specs.Grammar.{escaped};
ghost use Rattle.auth_scram.specs.Exchange.{base64_of, client_final_without_proof, client_first_message, server_first_message, server_final_message, with_proof};

use base_io::{Bytes, NoMemory, Text};
use base64::engine::general_purpose::STANDARD;
use std::alloc::Global;

// Two texts joined.
pub(crate) fn joined(alloc: Global, first: &str, second: &str) -> Result<Text, NoMemory>
    ensures { IfOk result (λ t. t ≡ first.now ++ second.now) }
{
    Ok(Text::from(format!(in alloc; "{first}{second}")?))
}

// Bytes in base64 (RFC 4648, section 4).
fn base64(alloc: Global, bytes: &[u8]) -> Result<Text, NoMemory>
    ensures { IfOk result (λ t. t ≡ base64_of bytes.now) }
{
    Ok(Text::from(STANDARD.encode(alloc, bytes)?))
}

// 32 bytes in base64, which takes no memory.
fn base64_of_key(key: &[u8; 32]) -> [u8; 44]
    ensures { result ≡ base64_of key.now }
{
    let mut text = [0u8; 44];
    match STANDARD.encode_slice(key, &mut text) {
        Ok(_) => text,
        Err(_) => unreachable!(),
    }
}

// The server's first message.
pub(crate) fn server_first(
    alloc: Global,
    nonce: &str,
    salt: &[u8],
    i: u32,
) -> Result<Text, NoMemory>
    ensures { IfOk result (λ t. t ≡ server_first_message nonce.now salt.now i) }
{
    let text = base64(alloc, salt)?;
    let salt = text.as_str();
    Ok(Text::from(format!(in alloc; "r={nonce},s={salt},i={i}")?))
}

// A name with `,` as `=2C` and `=` as `=3D`, added to a message.
fn append_escaped(message: &mut Bytes, name: &[u8]) -> Result<(), NoMemory>
    ensures { IfOk result (λ _. message.new.items ≡ message.old.items ++ escaped name.now) }
{
    for byte in name {
        match *byte {
            b',' => message.append(b"=2C")?,
            b'=' => message.append(b"=3D")?,
            other => message.append(&[other])?,
        }
    }
    Ok(())
}

// The client's first message.
pub(crate) fn client_first(alloc: Global, name: &str, nonce: &str) -> Result<Bytes, NoMemory>
    ensures { IfOk result (λ m. m.items ≡ client_first_message name.now nonce.now) }
{
    let mut message = Bytes::from_slice(alloc, b"n,,n=")?;
    append_escaped(&mut message, name.as_bytes())?;
    message.append(b",r=")?;
    message.append(nonce.as_bytes())?;
    Ok(message)
}

// The client's final message up to its proof.
pub(crate) fn without_proof(alloc: Global, nonce: &[u8]) -> Result<Bytes, NoMemory>
    ensures { IfOk result (λ m. m.items ≡ client_final_without_proof nonce.now) }
{
    let mut message = Bytes::from_slice(alloc, b"c=biws,r=")?;
    message.append(nonce)?;
    Ok(message)
}

// The proof, added to a client's final message.
pub(crate) fn append_proof(message: &mut Bytes, proof: &[u8; 32]) -> Result<(), NoMemory>
    ensures { IfOk result (λ _. message.new.items ≡ with_proof message.old.items proof.now) }
{
    message.append(b",p=")?;
    message.append(&base64_of_key(proof))?;
    Ok(())
}

// The server's final message.
pub(crate) fn server_final(alloc: Global, verifier: &[u8; 32]) -> Result<Bytes, NoMemory>
    ensures { IfOk result (λ m. m.items ≡ server_final_message verifier.now) }
{
    let mut message = Bytes::from_slice(alloc, b"v=")?;
    message.append(&base64_of_key(verifier))?;
    Ok(message)
}
