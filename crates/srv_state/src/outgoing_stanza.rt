//! What goes to a session.
ghost use Rattle.std.specs.Prelude.{◌≡◌, IfOk};

use base_io::{Bytes, NoMemory};
use std::alloc::Global;

/// A stanza to a session, by the session's number: its bytes for the queue, and the same for the connection.
#[derive(Drop)]
pub struct OutgoingStanza {
    pub number: u64,
    pub queued: Bytes,
    pub shown: Bytes,
    ghost same: { queued.items ≡ shown.items },
}

impl OutgoingStanza {
    /// With these bytes, which are copied once.
    pub fn new(alloc: Global, number: u64, bytes: Bytes) -> Result<OutgoingStanza, NoMemory>
        ensures { IfOk result (λ outgoing_stanza. (outgoing_stanza.number ≡ number) × (outgoing_stanza.shown.items ≡ bytes.items)) }
    {
        Ok(OutgoingStanza {
            number,
            queued: Bytes::from_slice(alloc, bytes.as_slice())?,
            shown: bytes,
        })
    }
}
