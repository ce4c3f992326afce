//! The answers of the table of sessions.
use std::error::Error;
use std::fmt;

/// For how many seconds a session that lost its connection can be resumed (XEP-0198, section 5).
pub const RESUMABLE_SECONDS: u32 = 300;

/// The same in milliseconds.
pub const RESUMABLE_FOR: u64 = 1_000 * RESUMABLE_SECONDS as u64;

/// The answer to a bind: the new session's number, and the session that it ended, where there was one.
#[derive(Clone, Copy, Debug, PartialEq, Eq)]
pub struct Bound {
    pub number: u64,
    pub ended: Option<Ended>,
}

/// A session that ended: its number and its connection, where it had one.
#[derive(Clone, Copy, Debug, PartialEq, Eq)]
pub struct Ended {
    pub number: u64,
    pub conn: Option<u64>,
}

/// What became of a session whose connection was lost, by its number.
#[derive(Clone, Copy, Debug, PartialEq, Eq)]
pub enum Lost {
    /// It is parked, and can be resumed.
    Parked(u64),
    /// It ended.
    Ended(u64),
}

/// The session's stanzas are counted already (XEP-0198 section 3).
#[derive(Clone, Copy, Debug, PartialEq, Eq)]
pub struct AlreadyEnabled;

impl fmt::Display for AlreadyEnabled {
    fn fmt<W: fmt::Write>(&self, f: &mut fmt::Formatter<W>) -> fmt::Result {
        f.write_str("the session's stanzas are counted already")
    }
}

impl Error for AlreadyEnabled {}

/// The answer to a resumption: the session's number, the stanzas of the peer that it handled (modulo 2^32), and the
/// connection that it had, where it had one.
#[derive(Clone, Copy, Debug, PartialEq, Eq)]
pub struct ResumeOk {
    pub number: u64,
    pub handled: u32,
    pub former: Option<u64>,
}

/// Why a session isn't resumed (XEP-0198 section 5).
#[derive(Clone, Copy, Debug, PartialEq, Eq)]
pub enum ResumeFault {
    /// The `previd` names no session that lives, can be resumed and is of this account.
    UnknownPrevid,
    /// The peer's count `h` is above the number `send_count` of stanzas that were sent to it (modulo 2^32). The session
    /// ended, and had the connection `former`.
    TooHigh {
        h: u32,
        send_count: u32,
        former: Option<u64>,
    },
}

impl fmt::Display for ResumeFault {
    fn fmt<W: fmt::Write>(&self, f: &mut fmt::Formatter<W>) -> fmt::Result {
        match self {
            ResumeFault::UnknownPrevid => f.write_str("no session to resume"),
            ResumeFault::TooHigh { h, send_count, .. } => {
                write!(f, "{h} stanzas handled of {send_count} sent")
            }
        }
    }
}

impl Error for ResumeFault {}
