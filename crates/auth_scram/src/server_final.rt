//! The server's final message as it is read (RFC 5802, section 7).
ghost use Rattle.std.specs.Prelude.{◌≡◌};
ghost use Rattle.std.specs.Option.{option_map};
ghost use Rattle.auth_scram.specs.Messages.{error_part, server_final_of, server_final_parts, verifier_part};
ghost use Rattle.auth_scram.specs.Parts.{Gives};

use crate::contents::hash_of;
use crate::fault::{ScramFault, malformed};
use crate::parts::{Departure, end, literal, run};
use crate::values::{Extensions, Until};
use auth_primitives::Base64Text;

/// The base64 of a verifier, behind `v`.
#[tactic(auto, unfolding(crate::specs::Messages::verifier_part))]
fn verifier_part(bytes: &[u8]) -> Result<Option<&[u8]>, Departure<'_>>
    ensures { Gives (λ found. option_map (λ text. text.now) found) result (verifier_part bytes.now) }
{
    let rest = literal(b"=", bytes)?;
    let (verifier, rest) = run(Base64Text::new(), rest)?;
    let (_, rest) = run(Extensions::Comma(Until::End), rest)?;
    end(rest)?;
    Ok(Some(verifier))
}

/// An error, behind `e`.
#[tactic(auto, unfolding(crate::specs::Messages::error_part))]
fn error_part(bytes: &[u8]) -> Result<Option<&[u8]>, Departure<'_>>
    ensures { Gives (λ found. option_map (λ text. text.now) found) result (error_part bytes.now) }
{
    let rest = literal(b"=", bytes)?;
    let (_, rest) = run(Extensions::First(Until::End), rest)?;
    end(rest)?;
    Ok(None)
}

/// The base64 of the verifier of a server's final message, all of the bytes; none where it tells an error.
fn server_final_parts(bytes: &[u8]) -> Result<Option<&[u8]>, Departure<'_>>
    ensures { Gives (λ found. option_map (λ text. text.now) found) result (server_final_parts bytes.now) }
{
    let Some((byte, rest)) = bytes.split_first() else {
        return Err(Departure { rest: bytes });
    };
    match byte {
        b'v' => verifier_part(rest),
        b'e' => error_part(rest),
        _ => Err(Departure { rest: bytes }),
    }
}

/// The verifier of a server's final message (RFC 5802, section 7). None where it hasn't 32 bytes, or where the message
/// tells an error. `Malformed` comes exactly where it leaves the grammar, with the place. It takes no memory.
pub(crate) fn read_server_final(bytes: &[u8]) -> Result<Option<[u8; 32]>, ScramFault>
    ensures { result ≡ server_final_of bytes.now }
{
    match server_final_parts(bytes) {
        Ok(Some(verifier)) => Ok(hash_of(verifier)),
        Ok(None) => Ok(None),
        Err(departure) => Err(malformed(bytes, departure.rest)),
    }
}
