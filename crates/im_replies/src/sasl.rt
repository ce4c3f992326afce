//! What a server says of a login (RFC 6120, section 6.4).
ghost use Rattle.std.specs.Prelude.{◌≡◌, IfOk};
ghost use Rattle.im_replies.specs.Sasl.{challenge_text, failure_text, success_text};

use crate::spelling::spelled;
use base_io::{Bytes, NoMemory, Text};
use im_login::{Challenge, SaslFailure, Success};
use std::alloc::Global;

/// `challenge` with a message of the mechanism (RFC 6120, section 6.4.3).
pub fn challenge(alloc: Global, payload: Bytes) -> Result<Bytes, NoMemory>
    ensures { IfOk result (λ b. b.items ≡ challenge_text payload.items) }
{
    let tree = Challenge { payload }.tree(alloc)?;
    spelled(alloc, &tree)
}

/// `success` with the last message of the mechanism (RFC 6120, section 6.4.6).
pub fn success(alloc: Global, payload: Bytes) -> Result<Bytes, NoMemory>
    ensures { IfOk result (λ b. b.items ≡ success_text payload.items) }
{
    let tree = Success { payload }.tree(alloc)?;
    spelled(alloc, &tree)
}

/// `failure` with the condition of this name (RFC 6120, sections 6.4.5 and 6.5).
pub fn failure(alloc: Global, condition: &str) -> Result<Bytes, NoMemory>
    ensures { IfOk result (λ b. b.items ≡ failure_text condition.now) }
{
    let condition = Text::from_str(alloc, condition)?;
    let tree = SaslFailure { condition }.tree(alloc)?;
    spelled(alloc, &tree)
}
