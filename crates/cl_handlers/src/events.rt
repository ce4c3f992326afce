//! What a client tells its user, and what it puts.
use base_io::{Bytes, ListOf, Text};
use im_stanza::Condition;
use mam_log::PageOutcome;
use sm_acks::TooHigh;
use std::error::Error;
use std::fmt;
use xml_framer::Fault;

/// Why a connection was left, which the server has to answer for. Nothing goes out behind it, but for `TooHigh`.
#[derive(Debug, Drop)]
pub enum PeerFault {
    /// What came can't be read (RFC 6120, section 11; XML 1.0).
    Framing(Fault),
    /// The server ended the stream by an error with this condition (RFC 6120, section 4.9).
    Stream(Text),
    /// The server refused the login with this condition (RFC 6120, section 6.5).
    Sasl(Text),
    /// The server's verifier isn't the right one: it doesn't know the password's keys (RFC 5802, section 3).
    BadVerifier,
    /// Another check of SCRAM-SHA-256 failed (RFC 5802, section 5).
    Scram,
    /// The mechanism, or the binding of resources, isn't offered (RFC 6120, section 4.3.2).
    NoFeature,
    /// An item that isn't the one that is awaited.
    Unexpected,
    /// The server stated that it had handled more stanzas than were put (XEP-0198, section 4). The stream error and the
    /// footer go out, and the session ends.
    TooHigh(TooHigh),
    /// Something had to be put, and 10,000 stanzas wait to be acknowledged.
    Unacknowledged,
    /// The server ended the stream (RFC 6120, section 4.4).
    Closed,
}

/// Why a catch-up ended before its last page. What the open page had is dropped.
#[derive(Drop)]
pub enum CatchUpFault {
    /// The server refused the request with this condition; `undefined-condition` where it told none, and where its answer
    /// is no end of a page.
    Refused(Condition),
    /// More results came than were asked for.
    Overrun,
    /// The last result told is not the last one that came.
    Mismatch {
        last: Option<Text>,
        got: Option<Text>,
    },
    /// This id stands twice in the page, or is in the log.
    Repeats(Text),
    /// A page is empty, and is not the last one.
    NoAdvance,
}

/// What happened.
#[derive(Drop)]
pub enum Event {
    /// A resource was bound, and a session began: that of this epoch.
    Bound { epoch: u64 },
    /// The session was resumed.
    Resumed,
    /// The session can't be resumed, and ended.
    ResumeFailed,
    /// The server has handled so many stanzas more (XEP-0198, section 4).
    Acked { count: u32 },
    /// A page was taken over into the log.
    PageDone(PageOutcome),
    /// A catch-up ended before its last page.
    CatchUpRefused(CatchUpFault),
    /// The submission of this id came back with this condition (RFC 6120, section 8.3.1).
    Bounced { origin: Text, condition: Condition },
    /// The connection was left.
    Ended(PeerFault),
}

/// Events, in order.
pub type Events = ListOf<Event>;

/// What a client puts into its stream, and what happened. What a call puts or tells it adds behind what is there; many calls
/// do only one of both, or neither.
#[derive(Drop)]
pub struct ClientOut {
    pub bytes: Bytes,
    pub events: Events,
}

impl fmt::Display for PeerFault {
    fn fmt<W: fmt::Write>(&self, f: &mut fmt::Formatter<W>) -> fmt::Result {
        match self {
            PeerFault::Framing(fault) => write!(f, "{} at byte {}", fault.why, fault.at),
            PeerFault::Stream(condition) => write!(f, "the server ended the stream: {condition}"),
            PeerFault::Sasl(condition) => write!(f, "the login is refused: {condition}"),
            PeerFault::BadVerifier => f.write_str("the server's verifier is wrong"),
            PeerFault::Scram => f.write_str("the exchange of SCRAM-SHA-256 failed"),
            PeerFault::NoFeature => f.write_str("a feature is not offered"),
            PeerFault::Unexpected => f.write_str("another item is awaited"),
            PeerFault::TooHigh(fault) => write!(f, "a count is too high: {fault}"),
            PeerFault::Unacknowledged => f.write_str("too many stanzas wait"),
            PeerFault::Closed => f.write_str("the server ended the stream"),
        }
    }
}

impl Error for PeerFault {}
