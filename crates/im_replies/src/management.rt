//! What a server says of the acknowledgement of stanzas and of resumption (XEP-0198, sections 3 to 5).
ghost use Rattle.std.specs.Prelude.{◌≡◌, IfOk};
ghost use Rattle.base_lemmas.specs.Hexadecimal.{hex16_of};
ghost use Rattle.im_replies.specs.Management.{ack_text, enabled_text, refused_text, request_text, resumable_text, resumed_text};

use crate::spelling::spelled;
use base_io::{Bytes, NoMemory, Text};
use base_lemmas::hex16;
use im_extensions::{Ack, Enabled, Request, Resumed, SmFailed};
use im_stanza::Condition;
use std::alloc::Global;

// The text by which a session is resumed.
fn previd(alloc: Global, session: u64) -> Result<Text, NoMemory>
    ensures { IfOk result (λ id. id ≡ hex16_of session) }
{
    match str::from_utf8(&hex16(session)) {
        Ok(id) => Text::from_str(alloc, id),
        Err(_) => unreachable!(),
    }
}

/// `r`: the client is asked how many stanzas it has handled (XEP-0198, section 4).
pub fn request(alloc: Global) -> Result<Bytes, NoMemory>
    ensures { IfOk result (λ b. b.items ≡ request_text) }
{
    let tree = Request.tree(alloc)?;
    spelled(alloc, &tree)
}

/// `a`: how many stanzas of the client were handled, modulo 2^32 (XEP-0198, section 4).
pub fn ack(alloc: Global, h: u32) -> Result<Bytes, NoMemory>
    ensures { IfOk result (λ b. b.items ≡ ack_text h) }
{
    let tree = Ack { h }.tree(alloc)?;
    spelled(alloc, &tree)
}

/// `enabled` for a stream that can't be resumed (XEP-0198, section 3).
pub fn enabled(alloc: Global) -> Result<Bytes, NoMemory>
    ensures { IfOk result (λ b. b.items ≡ enabled_text) }
{
    let enabled = Enabled {
        id: Text::new(alloc),
        resume: false,
        max: None,
    };
    let tree = enabled.tree(alloc)?;
    spelled(alloc, &tree)
}

/// `enabled` for a stream that can be resumed for so many seconds, by the number of its session (XEP-0198, section 3).
pub fn resumable(alloc: Global, session: u64, seconds: u32) -> Result<Bytes, NoMemory>
    ensures { IfOk result (λ b. b.items ≡ resumable_text session seconds) }
{
    let enabled = Enabled {
        id: previd(alloc, session)?,
        resume: true,
        max: Some(seconds),
    };
    let tree = enabled.tree(alloc)?;
    spelled(alloc, &tree)
}

/// `resumed`: the session of this number goes on, and so many of the client's stanzas were handled (XEP-0198, section 5).
pub fn resumed(alloc: Global, session: u64, h: u32) -> Result<Bytes, NoMemory>
    ensures { IfOk result (λ b. b.items ≡ resumed_text session h) }
{
    let previd = previd(alloc, session)?;
    let tree = Resumed { previd, h }.tree(alloc)?;
    spelled(alloc, &tree)
}

/// `failed`: what was asked of stream management is refused (XEP-0198, sections 3 and 5).
pub fn refused(alloc: Global, condition: Condition) -> Result<Bytes, NoMemory>
    ensures { IfOk result (λ b. b.items ≡ refused_text condition) }
{
    let tree = SmFailed { condition }.tree(alloc)?;
    spelled(alloc, &tree)
}
