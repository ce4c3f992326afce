//! The server's first message as it is read (RFC 5802, section 7).
ghost use Rattle.std.specs.Prelude.{◌≡◌, IfOk};
ghost use Rattle.auth_scram.specs.Messages.{server_first_of, server_first_parts};
ghost use Rattle.auth_scram.specs.Parts.{Gives};
ghost use Rattle.auth_scram.specs.Seen.{Refuses, server_first_seen, server_first_view};
ghost use Rattle.auth_primitives.specs.Canonical.{IsBase64};

use crate::classes::{Count, NONCE};
use crate::contents::count_of;
use crate::fault::{ScramFault, malformed};
use crate::parts::{Departure, end, literal, run};
use crate::values::{Extensions, Until};
use auth_primitives::Base64Text;

/// The server's first message (RFC 5802, section 7): the nonce, the salt in base64, and the count; a count above
/// 4,294,967,295 is given as that.
#[derive(Clone, Copy)]
pub(crate) struct ServerFirst<'a> {
    pub nonce: &'a [u8],
    pub salt: &'a [u8],
    pub count: u32,
}

/// The texts of a server's first message: the salt's base64 and the count's digits.
#[derive(Clone, Copy)]
pub(crate) struct ServerFirstParts<'a> {
    pub nonce: &'a [u8],
    pub salt: &'a [u8],
    pub count: &'a [u8],
}

/// The parts of a server's first message, all of the bytes.
#[tactic(auto, unfolding(crate::specs::Messages::server_first_parts))]
fn server_first_parts(bytes: &[u8]) -> Result<ServerFirstParts<'_>, Departure<'_>>
    ensures { Gives server_first_seen result (server_first_parts bytes.now) }
{
    let rest = literal(b"r=", bytes)?;
    let (nonce, rest) = run(NONCE, rest)?;
    let rest = literal(b",s=", rest)?;
    let (salt, rest) = run(Base64Text::new(), rest)?;
    let rest = literal(b",i=", rest)?;
    let (count, rest) = run(Count::Start, rest)?;
    let (_, rest) = run(Extensions::Comma(Until::End), rest)?;
    end(rest)?;
    Ok(ServerFirstParts { nonce, salt, count })
}

/// What a server's first message says. `Malformed` comes exactly where it leaves the grammar, with the place. It takes
/// no memory.
pub(crate) fn read_server_first(bytes: &[u8]) -> Result<ServerFirst<'_>, ScramFault>
    ensures read { Refuses server_first_view result (server_first_of bytes.now) }
    ensures salt { IfOk result (λ m. IsBase64 m.salt.now) }
{
    let parts = match server_first_parts(bytes) {
        Ok(parts) => parts,
        Err(departure) => return Err(malformed(bytes, departure.rest)),
    };
    Ok(ServerFirst {
        nonce: parts.nonce,
        salt: parts.salt,
        count: count_of(parts.count),
    })
}
