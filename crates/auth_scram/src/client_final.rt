//! The client's final message as it is read (RFC 5802, section 7).
ghost use Rattle.std.specs.Prelude.{◌≡◌};
ghost use Rattle.auth_scram.specs.Messages.{before_proof, client_final_of, client_final_parts, gs2_base64};
ghost use Rattle.auth_scram.specs.Parts.{Gives};
ghost use Rattle.auth_scram.specs.Seen.{Refuses, client_final_seen, client_final_view};

use crate::binding_flag::BindingFlag;
use crate::classes::NONCE;
use crate::contents::hash_of;
use crate::fault::{ScramFault, malformed};
use crate::parts::{Departure, end, literal, run};
use crate::values::{Extensions, Until};
use auth_primitives::Base64Text;

/// The client's final message (RFC 5802, section 7): all in front of `,p=`, the nonce, and the proof where it has 32
/// bytes.
#[derive(Clone, Copy)]
pub(crate) struct ClientFinal<'a> {
    pub without_proof: &'a [u8],
    pub nonce: &'a [u8],
    pub proof: Option<[u8; 32]>,
}

/// The texts of a client's final message: the nonce, and the proof's base64.
#[derive(Clone, Copy)]
pub(crate) struct ClientFinalParts<'a> {
    pub nonce: &'a [u8],
    pub proof: &'a [u8],
}

/// The base64 of the GS2 header that has this flag and no authorization identity.
fn gs2_base64(flag: BindingFlag) -> &'static [u8]
    ensures { result.now ≡ gs2_base64 flag }
{
    match flag {
        BindingFlag::Unsupported => b"biws",
        BindingFlag::NotOffered => b"eSws",
    }
}

/// The parts of a client's final message, all of the bytes.
#[tactic(auto, unfolding(crate::specs::Messages::client_final_parts))]
fn client_final_parts(
    flag: BindingFlag,
    bytes: &[u8],
) -> Result<ClientFinalParts<'_>, Departure<'_>>
    ensures { Gives client_final_seen result (client_final_parts flag bytes.now) }
{
    let rest = literal(b"c=", bytes)?;
    let rest = literal(gs2_base64(flag), rest)?;
    let rest = literal(b",r=", rest)?;
    let (nonce, rest) = run(NONCE, rest)?;
    let (_, rest) = run(Extensions::Comma(Until::Proof), rest)?;
    let (proof, rest) = run(Base64Text::new(), rest)?;
    end(rest)?;
    Ok(ClientFinalParts { nonce, proof })
}

/// All in front of `,p=` and the proof.
fn before_proof<'a>(bytes: &'a [u8], proof: &[u8]) -> &'a [u8]
    ensures { result.now ≡ before_proof bytes.now proof.now }
{
    let end = bytes.len().saturating_sub(proof.len()).saturating_sub(3);
    &bytes[..end]
}

/// What a client's final message says, where `flag` is that of the client's first. `Malformed` comes exactly where it
/// leaves the grammar, with the place; a `c=` of another GS2 header leaves it, and so does an attribute `p` that is not
/// the last. It takes no memory.
pub(crate) fn read_client_final(
    flag: BindingFlag,
    bytes: &[u8],
) -> Result<ClientFinal<'_>, ScramFault>
    ensures { Refuses client_final_view result (client_final_of flag bytes.now) }
{
    let parts = match client_final_parts(flag, bytes) {
        Ok(parts) => parts,
        Err(departure) => return Err(malformed(bytes, departure.rest)),
    };
    Ok(ClientFinal {
        without_proof: before_proof(bytes, parts.proof),
        nonce: parts.nonce,
        proof: hash_of(parts.proof),
    })
}
