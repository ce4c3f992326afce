//! What a call comes to.
ghost use Rattle.std.specs.Prelude.{◌≡◌, IfOk};

use crate::outcome::Outcome;
use base_io::{Bytes, NoMemory};
use std::alloc::Global;

/// What a call comes to, and the text that is due.
#[derive(Drop)]
pub struct Answer {
    pub outcome: Outcome,
    pub text: Bytes,
}

/// An outcome with a text that doesn't vary.
pub fn said(alloc: Global, outcome: Outcome, text: &str) -> Result<Answer, NoMemory>
    ensures outcome { IfOk result (λ answer. answer.outcome ≡ outcome) }
    ensures text { IfOk result (λ answer. answer.text.items ≡ text.now) }
{
    Ok(Answer {
        outcome,
        text: Bytes::from_slice(alloc, text.as_bytes())?,
    })
}
