//! What an element does in each state.
ghost use Rattle.std.specs.Prelude.{◌≡◌, IfErr, IfOk};
ghost use Rattle.cl_login.specs.LoginRows.{authing_row, check_fault, checked, features1_row, other_row, responding_row};
ghost use Rattle.cl_login.specs.Puts.{seen, spelled};

use crate::account::ClientAccount;
use crate::answers::{Answer, NotTaken, ends, or_not_taken, sends};
use crate::begun_exchange::BegunExchange;
use crate::login_fault::LoginFault;
use crate::login_state::LoginState;
use crate::nonce::Nonce;
use crate::replied_exchange::RepliedExchange;
use crate::writing::header_bytes;
use auth_scram::{Password, ScramFault};
use base_io::NoMemory;
use im_login::{Challenge, Features, SaslFailure, Success};
use im_payload::ExtFault;
use std::alloc::Global;
use xml_trees::Tree;

/// An element that isn't awaited: a failure of SASL, or another.
pub(crate) fn other(alloc: Global, tree: &Tree) -> Result<Answer, NoMemory>
    ensures { IfOk result (λ a. seen a ≡ spelled (other_row tree.now)) }
{
    match SaslFailure::read(alloc, tree) {
        Ok(failure) => Ok(ends(alloc, LoginFault::Sasl(failure.condition))),
        Err(ExtFault::NoMemory) => Err(NoMemory),
        Err(ExtFault::NotThis | ExtFault::Bad(_)) => Ok(ends(alloc, LoginFault::Unexpected)),
    }
}

/// An element where the first features are awaited.
pub(crate) fn features1(
    alloc: Global,
    account: &ClientAccount,
    nonce: &Nonce,
    tree: &Tree,
) -> Result<Answer, NoMemory>
    ensures { IfOk result (λ a. seen a ≡ spelled (features1_row account.now nonce.now tree.now)) }
{
    match Features::read(tree) {
        Ok(features) => {
            if features.scram_sha_256 {
                BegunExchange::begin(alloc, account, nonce)
            } else {
                Ok(ends(alloc, LoginFault::NoFeature))
            }
        }
        Err(_) => other(alloc, tree),
    }
}

/// An element where the challenge is awaited. The password may learn what it was stretched to.
pub(crate) fn authing(
    alloc: Global,
    exchange: BegunExchange,
    password: &mut Password,
    tree: &Tree,
) -> Result<Answer, NotTaken>
    ensures ok { IfOk result (λ a. seen a ≡ spelled (authing_row exchange tree.now)) }
    ensures err { IfErr result (λ e. e.state ≡ LoginState.Authing exchange) }
    ensures same { password.new ≡ password.old }
{
    match Challenge::read(alloc, tree) {
        Ok(challenge) => exchange.reply(alloc, password, challenge.payload.as_slice()),
        Err(ExtFault::NoMemory) => Err(NotTaken {
            state: LoginState::Authing { exchange },
        }),
        Err(ExtFault::NotThis | ExtFault::Bad(_)) => {
            or_not_taken(other(alloc, tree), LoginState::Authing { exchange })
        }
    }
}

// Why the server's final message is refused.
fn check_fault(fault: ScramFault) -> LoginFault
    ensures { result ≡ check_fault fault }
{
    match fault {
        ScramFault::BadVerifier => LoginFault::BadVerifier,
        _ => LoginFault::Scram,
    }
}

// What comes of the judgement of the server's final message.
fn checked(alloc: Global, domain: &str, judged: Result<(), ScramFault>) -> Result<Answer, NoMemory>
    ensures { IfOk result (λ a. seen a ≡ spelled (checked domain.now judged)) }
{
    match judged {
        Ok(()) => Ok(sends(header_bytes(alloc, domain)?, LoginState::Header2)),
        Err(fault) => Ok(ends(alloc, check_fault(fault))),
    }
}

/// An element where the success is awaited.
pub(crate) fn responding(
    alloc: Global,
    domain: &str,
    exchange: &RepliedExchange,
    tree: &Tree,
) -> Result<Answer, NoMemory>
    ensures { IfOk result (λ a. seen a ≡ spelled (responding_row domain.now exchange.now tree.now)) }
{
    match Success::read(alloc, tree) {
        Ok(success) => checked(alloc, domain, exchange.check(success.payload.as_slice())),
        Err(ExtFault::NoMemory) => Err(NoMemory),
        Err(ExtFault::NotThis | ExtFault::Bad(_)) => other(alloc, tree),
    }
}
