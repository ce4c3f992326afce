//! How a server begins and ends its stream (RFC 6120, sections 4.3 to 4.9).
ghost use Rattle.std.specs.Prelude.{◌≡◌, ◌++◌, IfOk, OnOk};
ghost use Rattle.base_lemmas.specs.Hexadecimal.{hex_digits};
ghost use Rattle.xml_writer.specs.Items.{declaration};
ghost use Rattle.im_replies.specs.Streams.{error_text, footer_text, header_text, hex_of, login_features_text, server_header, session_features_text, stream_id, too_high_text};
ghost use Rattle.xml_writer.specs.Canon.{written_header};

use crate::conditions::StreamCondition;
use crate::spelling::spelled;
use base_io::{Bytes, NoMemory, Text};
use base_lemmas::hex16;
use im_extensions::too_high_tree;
use im_login::Features;
use im_stanza::{CLIENT, STREAMS, stream_error as stream_error_tree};
use std::alloc::Global;
use xml_names::Header;
use xml_writer::{write_footer, write_header};

/// The declaration in front of a header (XML 1.0, section 2.8).
const DECLARATION: &[u8] = b"<?xml version='1.0'?>";

/// The place of the first byte drawn for a connection that its stream's id shows. Those before it are for the nonce of
/// the login.
const ID_AT: usize = 18;

// Adds a byte in two hexadecimal digits.
#[tactic(auto, using(crate::proofs::StreamIds::two_digits))]
fn push_digits(out: &mut Bytes, byte: u8) -> Result<(), NoMemory>
    ensures { OnOk result (out.new.items ≡ out.old.items ++ hex_digits 2 byte) }
{
    out.append(&hex16(u64::from(byte))[14..])
}

// Adds bytes in hexadecimal.
fn push_hexadecimal(out: &mut Bytes, bytes: &[u8]) -> Result<(), NoMemory>
    ensures { OnOk result (out.new.items ≡ out.old.items ++ hex_of bytes.now) }
{
    for byte in bytes {
        push_digits(out, *byte)?;
    }
    Ok(())
}

// The bytes of the id of a stream.
fn id_bytes(alloc: Global, connection: u64, entropy: &[u8; 24]) -> Result<Bytes, NoMemory>
    ensures { IfOk result (λ b. b.items ≡ stream_id connection entropy.now) }
{
    let mut bytes = Bytes::new(alloc);
    push_hexadecimal(&mut bytes, &entropy[ID_AT..])?;
    bytes.append(&hex16(connection))?;
    Ok(bytes)
}

// The id of a stream.
fn stream_id(alloc: Global, connection: u64, entropy: &[u8; 24]) -> Result<Text, NoMemory>
    ensures { IfOk result (λ id. id ≡ stream_id connection entropy.now) }
{
    let bytes = id_bytes(alloc, connection, entropy)?;
    match str::from_utf8(bytes.as_slice()) {
        Ok(id) => Text::from_str(alloc, id),
        Err(_) => unreachable!(),
    }
}

// What the header says.
fn server_header(alloc: Global, domain: &str, id: Text) -> Result<Header, NoMemory>
    ensures { IfOk result (λ header. header ≡ server_header domain.now id) }
{
    Ok(Header {
        ns: Text::from_str(alloc, STREAMS)?,
        name: Text::from_str(alloc, "stream")?,
        content: Text::from_str(alloc, CLIENT)?,
        to: None,
        from: Some(Text::from_str(alloc, domain)?),
        id: Some(id),
        version: Some(Text::from_str(alloc, "1.0")?),
        lang: Some(Text::from_str(alloc, "en")?),
    })
}

// A header behind its declaration.
fn declared(alloc: Global, header: &Header) -> Result<Bytes, NoMemory>
    ensures { IfOk result (λ b. b.items ≡ declaration ++ written_header header.now) }
{
    let mut bytes = Bytes::from_slice(alloc, DECLARATION)?;
    write_header(header, &mut bytes)?;
    Ok(bytes)
}

/// A declaration and the header of a server of this domain on a connection, which has a number and 24 bytes that were
/// drawn for it: the last 6 of them and the number make the id of the stream (RFC 6120, section 4.7).
pub fn header(
    alloc: Global,
    domain: &str,
    connection: u64,
    entropy: &[u8; 24],
) -> Result<Bytes, NoMemory>
    ensures { IfOk result (λ b. b.items ≡ header_text domain.now connection entropy.now) }
{
    let id = stream_id(alloc, connection, entropy)?;
    let header = server_header(alloc, domain, id)?;
    declared(alloc, &header)
}

/// The footer (RFC 6120, section 4.4).
pub fn footer(alloc: Global) -> Result<Bytes, NoMemory>
    ensures { IfOk result (λ b. b.items ≡ footer_text) }
{
    let mut bytes = Bytes::new(alloc);
    write_footer(&mut bytes)?;
    Ok(bytes)
}

/// What a client can do that hasn't logged in: log in by SCRAM-SHA-256 (RFC 6120, section 6.4.1).
pub fn login_features(alloc: Global) -> Result<Bytes, NoMemory>
    ensures { IfOk result (λ b. b.items ≡ login_features_text) }
{
    let tree = Features::BEFORE_SASL.tree(alloc)?;
    spelled(alloc, &tree)
}

/// What a client can do that has logged in: bind a resource (RFC 6120, section 7.4), and resume a session or have its
/// stanzas acknowledged (XEP-0198, section 3).
pub fn session_features(alloc: Global) -> Result<Bytes, NoMemory>
    ensures { IfOk result (λ b. b.items ≡ session_features_text) }
{
    let tree = Features::AFTER_SASL.tree(alloc)?;
    spelled(alloc, &tree)
}

/// A stream error (RFC 6120, section 4.9). The footer has to follow it.
pub fn stream_error(alloc: Global, condition: StreamCondition) -> Result<Bytes, NoMemory>
    ensures { IfOk result (λ b. b.items ≡ error_text condition) }
{
    let tree = stream_error_tree(alloc, condition.name(), None)?;
    spelled(alloc, &tree)
}

/// The stream error at a count `h` of stanzas handled that is above the number of those that were sent (XEP-0198,
/// section 4). The footer has to follow it.
pub fn too_high(alloc: Global, h: u32, send_count: u32) -> Result<Bytes, NoMemory>
    ensures { IfOk result (λ b. b.items ≡ too_high_text h send_count) }
{
    let extra = too_high_tree(alloc, h, send_count)?;
    let tree = stream_error_tree(alloc, "undefined-condition", Some(extra))?;
    spelled(alloc, &tree)
}
