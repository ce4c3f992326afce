//! The answer to `auth` (RFC 6120, section 6.4.2; RFC 5802, section 5).
ghost use Rattle.std.specs.Prelude.{◌≡◌, true, IfOk, OnErr};
ghost use Rattle.srv_login.specs.Accounts.{account_named};
ghost use Rattle.srv_login.specs.Negotiations.{auth_answer, begun_by, begun_with, first_condition, is_scram};
ghost use Rattle.im_login.specs.Sasl.{auth_mechanism};
ghost use Rattle.auth_scram.specs.Exchange.{added_nonce};
ghost use Rattle.auth_scram.specs.Messages.{client_first_of};
ghost use Rattle.xml_trees.specs.Views.{elem_view};

use crate::accounts::Accounts;
use crate::sasl_condition::SaslCondition;
use auth_scram::{ClientFirst, ScramFault, ScramServer, added_nonce, read_first};
use base_io::NoMemory;
use im_login::Auth;
use im_payload::ExtFault;
use std::alloc::Global;
use xml_trees::Element;

/// A login whose challenge was made: the place of the account, and the server's end of the exchange, whose `message` is
/// the challenge.
#[derive(Drop)]
pub struct Negotiation {
    pub account: u32,
    pub exchange: ScramServer,
}

/// What a server answers to `auth`.
#[derive(Drop)]
pub enum AuthAnswer {
    /// A challenge.
    Begins(Negotiation),
    /// A failure of this condition.
    Fails(SaslCondition),
}

/// Whether an element is an `auth` that names SCRAM-SHA-256.
fn names_scram(element: &Element) -> bool
    ensures { result ≡ is_scram (auth_mechanism (elem_view element.now)) }
{
    match Auth::mechanism_of(element) {
        Some(mechanism) => mechanism == "SCRAM-SHA-256",
        None => false,
    }
}

// Why a first message begins no exchange.
fn first_condition(fault: ScramFault) -> SaslCondition
    ensures { result ≡ first_condition fault }
{
    match fault {
        ScramFault::Authzid => SaslCondition::InvalidAuthzid,
        _ => SaslCondition::MalformedRequest,
    }
}

// Begins an exchange with the account that a first message names.
fn begin(
    alloc: Global,
    first: ClientFirst,
    entropy: &[u8; 24],
    accounts: &Accounts,
) -> Result<AuthAnswer, NoMemory>
    ensures { IfOk result (λ answer. answer ≡ begun_by first (added_nonce entropy.now) (account_named first.name accounts.now)) }
{
    let Some(found) = accounts.find(first.name.as_str()) else {
        return Ok(AuthAnswer::Fails(SaslCondition::NotAuthorized));
    };
    let nonce = added_nonce(entropy);
    match str::from_utf8(&nonce) {
        Ok(tail) => {
            let exchange = ScramServer::first(alloc, first, found.credentials, tail)?;
            Ok(AuthAnswer::Begins(Negotiation {
                account: found.position,
                exchange,
            }))
        }
        Err(_) => unreachable!(),
    }
}

// Answers a client's first message.
#[tactic(auto, using(auth_scram::proofs::Refusals::refused_as))]
fn answer_first(
    alloc: Global,
    message: &[u8],
    entropy: &[u8; 24],
    accounts: &Accounts,
) -> Result<AuthAnswer, NoMemory>
    ensures { IfOk result (λ answer. answer ≡ begun_with (added_nonce entropy.now) accounts.now (client_first_of message.now)) }
{
    match read_first(alloc, message) {
        Ok(first) => begin(alloc, first, entropy, accounts),
        Err(ScramFault::NoMemory) => Err(NoMemory),
        Err(fault) => Ok(AuthAnswer::Fails(first_condition(fault))),
    }
}

/// Answers an `auth`, with the bytes that were drawn for the connection, of which the first 18 are the nonce (RFC 6120,
/// section 6.4.2). It begins an exchange with the account that the client's first message names, or fails by the first of
/// these: `InvalidMechanism` where another mechanism than SCRAM-SHA-256 or none is named, `IncorrectEncoding` where the
/// text is neither strict base64 nor a lone `=`, `MalformedRequest` where the message leaves the grammar of RFC 5802 or
/// asks for channel binding, `InvalidAuthzid` where it asks for an authorization identity, `NotAuthorized` where no
/// account has its name. Another element than `auth` names no mechanism, and to fail for the mechanism takes no memory.
pub fn auth_answer(
    alloc: Global,
    element: &Element,
    entropy: &[u8; 24],
    accounts: &Accounts,
) -> Result<AuthAnswer, NoMemory>
    ensures answer { IfOk result (λ answer. answer ≡ auth_answer (elem_view element.now) entropy.now accounts.now) }
    ensures mechanism { OnErr result (is_scram (auth_mechanism (elem_view element.now)) ≡ true) }
{
    if !names_scram(element) {
        return Ok(AuthAnswer::Fails(SaslCondition::InvalidMechanism));
    }
    match Auth::read_element(alloc, element) {
        Ok(auth) => answer_first(alloc, auth.payload.as_slice(), entropy, accounts),
        Err(ExtFault::NoMemory) => Err(NoMemory),
        Err(ExtFault::NotThis | ExtFault::Bad(_)) => {
            Ok(AuthAnswer::Fails(SaslCondition::IncorrectEncoding))
        }
    }
}
