//! The answer to `response` (RFC 6120, sections 6.4.3 to 6.4.6; RFC 5802, section 5).
ghost use Rattle.std.specs.Prelude.{◌≡◌, IfOk};
ghost use Rattle.srv_login.specs.Negotiations.{ended_with, final_answer, final_seen, last_condition};
ghost use Rattle.auth_scram.specs.Exchange.{last_of};
ghost use Rattle.xml_trees.specs.Views.{elem_view};

use crate::negotiation::Negotiation;
use crate::sasl_condition::SaslCondition;
use auth_scram::ScramFault;
use base_io::{Bytes, NoMemory};
use im_login::Response;
use im_payload::ExtFault;
use std::alloc::Global;
use xml_trees::Element;

/// A login that succeeded: the place of the account, and the server's final message, which goes with `success`.
#[derive(Drop)]
pub struct Login {
    pub account: u32,
    pub message: Bytes,
}

/// What a server answers to `response`.
#[derive(Drop)]
pub enum FinalAnswer {
    /// Success.
    Succeeds(Login),
    /// A failure of this condition.
    Fails(SaslCondition),
}

// Why a final message is refused.
fn last_condition(fault: ScramFault) -> SaslCondition
    ensures { result ≡ last_condition fault }
{
    match fault {
        ScramFault::Malformed { at: _ } => SaslCondition::MalformedRequest,
        _ => SaslCondition::NotAuthorized,
    }
}

// Answers a client's final message.
#[tactic(auto, using(auth_scram::proofs::Refusals::refused_as))]
fn answer_last(
    alloc: Global,
    message: &[u8],
    negotiation: &Negotiation,
) -> Result<FinalAnswer, NoMemory>
    ensures { IfOk result (λ answer. final_seen answer ≡ ended_with negotiation.now.account (last_of negotiation.now.exchange message.now)) }
{
    match negotiation.exchange.judge(alloc, message) {
        Ok(message) => Ok(FinalAnswer::Succeeds(Login {
            account: negotiation.account,
            message,
        })),
        Err(ScramFault::NoMemory) => Err(NoMemory),
        Err(fault) => Ok(FinalAnswer::Fails(last_condition(fault))),
    }
}

/// Answers a `response` in a negotiation (RFC 6120, section 6.4.3). It succeeds exactly where the client's final message is
/// within the grammar of RFC 5802 and has the whole nonce and the right proof, and else fails by the first of these:
/// `IncorrectEncoding` where the text is neither strict base64 nor a lone `=`, or the element is another,
/// `MalformedRequest` where the message leaves the grammar, `NotAuthorized` where the nonce or the proof is another. The
/// negotiation is left for a caller that tries again where memory ran out; after any answer the caller drops it, since one
/// nonce is not to serve for two guesses.
pub fn final_answer(
    alloc: Global,
    element: &Element,
    negotiation: &Negotiation,
) -> Result<FinalAnswer, NoMemory>
    ensures { IfOk result (λ answer. final_seen answer ≡ final_answer (elem_view element.now) negotiation.now) }
{
    match Response::read_element(alloc, element) {
        Ok(response) => answer_last(alloc, response.payload.as_slice(), negotiation),
        Err(ExtFault::NoMemory) => Err(NoMemory),
        Err(ExtFault::NotThis | ExtFault::Bad(_)) => {
            Ok(FinalAnswer::Fails(SaslCondition::IncorrectEncoding))
        }
    }
}
