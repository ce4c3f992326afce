//! The client's first message as it is read (RFC 5802, section 7).
ghost use Rattle.std.specs.Prelude.{◌≡◌};
ghost use Rattle.auth_scram.specs.Exchange.{Judges};
ghost use Rattle.auth_scram.specs.Messages.{authzid, bare_parts, bare_texts, binding, binding_flag, client_first_of, first_parts, identity};
ghost use Rattle.auth_scram.specs.Parts.{Gives, cut_seen};
ghost use Rattle.auth_scram.specs.Seen.{first_seen, flagged, identified};

use crate::binding_flag::BindingFlag;
use crate::classes::{Class, NONCE, OneOrMore};
use crate::contents::{name_of, text_of};
use crate::fault::{ScramFault, malformed};
use crate::names::Name;
use crate::parts::{Departure, end, literal, run};
use crate::values::{Extensions, Until};
use base_io::Text;
use std::alloc::Global;

/// The client's first message (RFC 5802, section 7). `name` is decoded: `=2C` is a comma there, and `=3D` an equals
/// sign. `bare` is `client-first-message-bare`: the message without its GS2 header.
#[derive(Drop)]
pub struct ClientFirst {
    pub flag: BindingFlag,
    pub name: Text,
    pub nonce: Text,
    pub bare: Text,
}

/// The texts of a client's first message: no flag where it is `p`, whether there is an authorization identity, and
/// the name as it is spelled.
#[derive(Clone, Copy)]
pub(crate) struct FirstParts<'a> {
    pub flag: Option<BindingFlag>,
    pub authorizes: bool,
    pub name: &'a [u8],
    pub nonce: &'a [u8],
    pub bare: &'a [u8],
}

/// The flag of the channel binding, where it isn't `p`, and the rest.
fn binding_flag(bytes: &[u8]) -> Result<(Option<BindingFlag>, &[u8]), Departure<'_>>
    ensures { Gives flagged result (binding_flag bytes.now) }
{
    let Some((byte, rest)) = bytes.split_first() else {
        return Err(Departure { rest: bytes });
    };
    match byte {
        b'n' => Ok((Some(BindingFlag::Unsupported), rest)),
        b'y' => Ok((Some(BindingFlag::NotOffered), rest)),
        b'p' => binding(rest),
        _ => Err(Departure { rest: bytes }),
    }
}

/// The name of a channel binding, behind `p`.
#[tactic(auto, unfolding(crate::specs::Messages::binding))]
fn binding(bytes: &[u8]) -> Result<(Option<BindingFlag>, &[u8]), Departure<'_>>
    ensures { Gives flagged result (binding bytes.now) }
{
    let rest = literal(b"=", bytes)?;
    let start = OneOrMore {
        class: Class::Binding,
        some: false,
    };
    let (_, rest) = run(start, rest)?;
    Ok((None, rest))
}

/// Whether an authorization identity stands here, and the rest.
fn authzid(bytes: &[u8]) -> Result<(bool, &[u8]), Departure<'_>>
    ensures { Gives identified result (authzid bytes.now) }
{
    match bytes.split_first() {
        Some((b'a', rest)) => identity(rest),
        _ => Ok((false, bytes)),
    }
}

/// An authorization identity, behind `a`.
#[tactic(auto, unfolding(crate::specs::Messages::identity))]
fn identity(bytes: &[u8]) -> Result<(bool, &[u8]), Departure<'_>>
    ensures { Gives identified result (identity bytes.now) }
{
    let rest = literal(b"=", bytes)?;
    let (_, rest) = run(Name::Start, rest)?;
    Ok((true, rest))
}

/// The name as it is spelled and the nonce of `client-first-message-bare`, all of the bytes.
#[tactic(auto, unfolding(crate::specs::Messages::bare_texts))]
fn bare_texts(bare: &[u8]) -> Result<(&[u8], &[u8]), Departure<'_>>
    ensures { Gives cut_seen result (bare_texts bare.now) }
{
    let rest = literal(b"n=", bare)?;
    let (name, rest) = run(Name::Start, rest)?;
    let rest = literal(b",r=", rest)?;
    let (nonce, rest) = run(NONCE, rest)?;
    let (_, rest) = run(Extensions::Comma(Until::End), rest)?;
    end(rest)?;
    Ok((name, nonce))
}

/// The parts of a message whose GS2 header was read.
#[tactic(auto, unfolding(crate::specs::Messages::bare_parts))]
fn bare_parts(
    flag: Option<BindingFlag>,
    authorizes: bool,
    bare: &[u8],
) -> Result<FirstParts<'_>, Departure<'_>>
    ensures { Gives first_seen result (bare_parts flag authorizes bare.now) }
{
    let (name, nonce) = bare_texts(bare)?;
    Ok(FirstParts {
        flag,
        authorizes,
        name,
        nonce,
        bare,
    })
}

/// The parts of a client's first message, all of the bytes.
#[tactic(auto, unfolding(crate::specs::Messages::first_parts))]
fn first_parts(bytes: &[u8]) -> Result<FirstParts<'_>, Departure<'_>>
    ensures { Gives first_seen result (first_parts bytes.now) }
{
    let (flag, rest) = binding_flag(bytes)?;
    let rest = literal(b",", rest)?;
    let (authorizes, rest) = authzid(rest)?;
    let bare = literal(b",", rest)?;
    bare_parts(flag, authorizes, bare)
}

/// What a client's first message says (RFC 5802, section 7). `Malformed` comes exactly where it leaves the grammar,
/// with the place. Within the grammar, `Plus` comes exactly where its flag is `p`, and else `Authzid` exactly where it
/// asks for an authorization identity. Want of memory is answered only where the answer would be Ok.
pub fn read_first(alloc: Global, bytes: &[u8]) -> Result<ClientFirst, ScramFault>
    ensures exact { Judges (λ first. first) result (client_first_of bytes.now) }
{
    let parts = match first_parts(bytes) {
        Ok(parts) => parts,
        Err(departure) => return Err(malformed(bytes, departure.rest)),
    };
    let Some(flag) = parts.flag else {
        return Err(ScramFault::Plus);
    };
    if parts.authorizes {
        return Err(ScramFault::Authzid);
    }
    let name = name_of(alloc, parts.name)?;
    let nonce = text_of(alloc, parts.nonce)?;
    let bare = text_of(alloc, parts.bare)?;
    Ok(ClientFirst {
        flag,
        name,
        nonce,
        bare,
    })
}
