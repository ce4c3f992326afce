//! Why a script was not done, which the server or the connection has to answer for.
ghost use Rattle.std.specs.Prelude.{◌≡◌};
ghost use Rattle.cmd_sync.specs.Failures.{ask_name, failure_name, say_name};

use crate::conditions::SentCondition;
use cl_core::{CatchUpStart, SayFault};

/// Which call of the dialer or of its link stopped a script.
#[derive(Clone, Copy, Debug, PartialEq, Eq)]
pub enum LinkFailure {
    /// No connection was made.
    Dial,
    /// A read failed.
    Read,
    /// A write failed.
    Write,
    /// The connection ended.
    End,
}

/// Why a script was not done, which the server has to answer for: the connection was left, a catch-up ended before its last
/// page, the client refused a step, or too much came.
#[derive(Clone, Copy, Debug, PartialEq, Eq)]
pub enum PeerFailure {
    /// What came can't be read (RFC 6120, section 11; XML 1.0).
    Framing,
    /// The server ended the stream by an error with this condition (RFC 6120, section 4.9).
    Stream(SentCondition),
    /// The server refused the login with this condition (RFC 6120, section 6.5).
    Sasl(SentCondition),
    /// The server's verifier isn't the right one (RFC 5802, section 3).
    BadVerifier,
    /// Another check of SCRAM-SHA-256 failed (RFC 5802, section 5).
    Scram,
    /// The mechanism, or the binding of resources, isn't offered (RFC 6120, section 4.3.2).
    NoFeature,
    /// An item that isn't the one that is awaited.
    Unexpected,
    /// The server stated that it had handled more stanzas than were put (XEP-0198, section 4).
    TooHigh,
    /// Something had to be put, and 10,000 stanzas wait to be acknowledged.
    Unacknowledged,
    /// The server ended the stream (RFC 6120, section 4.4).
    Closed,
    /// The server refused a page with this condition (XEP-0313, section 4).
    Refused(SentCondition),
    /// More results came than were asked for.
    Overrun,
    /// The last result told is not the last one that came.
    Mismatch,
    /// An id stands twice in a page, or is in the log.
    Repeats,
    /// A page is empty, and is not the last one.
    NoAdvance,
    /// The client did not take a message.
    NotSaid(SayFault),
    /// The client did not begin a catch-up.
    NotAsked(CatchUpStart),
    /// More than `MOST_RECEIVED` bytes came.
    TooMuch,
}

fn say_name(fault: SayFault) -> &'static str
    ensures { result.now ≡ say_name fault }
{
    match fault {
        SayFault::BadText => "BadText",
        SayFault::NotBound => "NotBound",
        SayFault::OutboxFull => "OutboxFull",
        SayFault::NoMemory => "NoMemory",
    }
}

fn ask_name(fault: CatchUpStart) -> &'static str
    ensures { result.now ≡ ask_name fault }
{
    match fault {
        CatchUpStart::NotBound => "NotBound",
        CatchUpStart::OutboxFull => "OutboxFull",
        CatchUpStart::Underway => "Underway",
        CatchUpStart::NoMemory => "NoMemory",
    }
}

impl PeerFailure {
    /// Its name.
    pub fn name(self) -> &'static str
        ensures { result.now ≡ failure_name self }
    {
        match self {
            PeerFailure::Framing => "Framing",
            PeerFailure::Stream(_) => "Stream",
            PeerFailure::Sasl(_) => "Sasl",
            PeerFailure::BadVerifier => "BadVerifier",
            PeerFailure::Scram => "Scram",
            PeerFailure::NoFeature => "NoFeature",
            PeerFailure::Unexpected => "Unexpected",
            PeerFailure::TooHigh => "TooHigh",
            PeerFailure::Unacknowledged => "Unacknowledged",
            PeerFailure::Closed => "Closed",
            PeerFailure::Refused(_) => "Refused",
            PeerFailure::Overrun => "Overrun",
            PeerFailure::Mismatch => "Mismatch",
            PeerFailure::Repeats => "Repeats",
            PeerFailure::NoAdvance => "NoAdvance",
            PeerFailure::NotSaid(fault) => say_name(fault),
            PeerFailure::NotAsked(fault) => ask_name(fault),
            PeerFailure::TooMuch => "TooMuch",
        }
    }
}
