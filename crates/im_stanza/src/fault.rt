//! Why a tree is no stanza, and why a stanza has no error.
use base_io::{NoMemory, Text};
use im_jid::Jid;
use std::error::Error;
use std::fmt;

/// Why a tree is no stanza. The first of these that fits is answered.
#[derive(Drop, Debug)]
pub enum StanzaFault {
    /// The element is not `message`, `presence` or `iq` in `jabber:client`.
    NotAStanza,
    /// An `iq` has no `id`, or its `type` is absent or none of the four (RFC 6120, sections 8.1.3 and 8.2.3).
    BadFormat,
    /// `from` is there and is no address.
    BadFrom,
    /// `to` is there and is no address (RFC 6120, section 8.1.1). `message` tells a message from other stanzas. `reply`
    /// tells that an error is due: to a message that is not itself an error, and to an `iq` that asks or sets (RFC 6120
    /// sections 8.2.3 and 8.3.1). `from` and `id` are the stanza's, the id empty where it has none, and `to` is the
    /// attribute as it was written.
    BadTo {
        message: bool,
        reply: bool,
        from: Option<Jid>,
        id: Text,
        to: Text,
    },
    /// Memory ran out.
    NoMemory,
}

impl fmt::Display for StanzaFault {
    fn fmt<W: fmt::Write>(&self, f: &mut fmt::Formatter<W>) -> fmt::Result {
        f.write_str(match self {
            StanzaFault::NotAStanza => "no stanza",
            StanzaFault::BadFormat => "an iq without an id or a type",
            StanzaFault::BadFrom => "the sender's address is no address",
            StanzaFault::BadTo { .. } => "the recipient's address is no address",
            StanzaFault::NoMemory => "out of memory",
        })
    }
}

impl Error for StanzaFault {}

impl From<NoMemory> for StanzaFault {
    ghost use Rattle.std.specs.Prelude.{◌≡◌};
    ghost use Rattle.im_stanza.specs.declared.fault.StanzaFault.TheVariants.{NoMemory};

    ghost from_gives = { λ _ fault. fault ≡ NoMemory };

    fn from(_e: NoMemory) -> StanzaFault {
        StanzaFault::NoMemory
    }
}

/// Why no error was read from a stanza.
#[derive(Clone, Copy, Debug, PartialEq, Eq)]
pub enum StanzaErrorFault {
    /// The stanza has no child `error`, or the first one names no condition.
    NoError,
    /// Memory ran out.
    NoMemory,
}

impl fmt::Display for StanzaErrorFault {
    fn fmt<W: fmt::Write>(&self, f: &mut fmt::Formatter<W>) -> fmt::Result {
        f.write_str(match self {
            StanzaErrorFault::NoError => "no error with a condition",
            StanzaErrorFault::NoMemory => "out of memory",
        })
    }
}

impl Error for StanzaErrorFault {}

impl From<NoMemory> for StanzaErrorFault {
    ghost use Rattle.std.specs.Prelude.{◌≡◌};
    ghost use Rattle.im_stanza.specs.declared.fault.StanzaErrorFault.TheVariants.{NoMemory};

    ghost from_gives = { λ _ fault. fault ≡ NoMemory };

    fn from(_e: NoMemory) -> StanzaErrorFault {
        StanzaErrorFault::NoMemory
    }
}
