//! Why the system opened nothing.
//!
//! Contracts know that a call failed; what the system says of it is kept here for who is told of it.
ghost use Rattle.std.specs.Prelude.{◌≡◌, ◌↔◌};
ghost use Rattle.std.specs.IoError.{error_kind};

use std::fmt;
use std::io::{Error, ErrorKind};

/// The system's number for too many open files in this process.
const MANY_HERE: i32 = 24;

/// The system's number for too many open files in all.
const MANY_IN_ALL: i32 = 23;

/// What the system says of a call that opened nothing.
#[derive(Clone, Copy, Debug, PartialEq, Eq)]
pub enum SystemWhy {
    /// The port is in use.
    InUse,
    /// The port isn't for this user.
    NotPermitted,
    /// Nobody listens at the port.
    Refused,
    /// Too many files are open.
    TooManyFiles,
    /// Something else.
    Other,
}

impl SystemWhy {
    // In plain words.
    fn words(self) -> &'static str {
        match self {
            SystemWhy::InUse => "it is in use",
            SystemWhy::NotPermitted => "that isn't permitted",
            SystemWhy::Refused => "nobody listens there",
            SystemWhy::TooManyFiles => "too many files are open",
            SystemWhy::Other => "the system refuses it",
        }
    }
}

/// Which call opened nothing, and what the system says of it.
#[derive(Clone, Copy, Debug, PartialEq, Eq)]
pub enum OpenCause {
    /// A port could not be listened on.
    Listen { port: u16, why: SystemWhy },
    /// A connection could not be taken in.
    Accept { why: SystemWhy },
    /// A port could not be reached.
    Dial { port: u16, why: SystemWhy },
}

impl fmt::Display for OpenCause {
    fn fmt<W: fmt::Write>(&self, f: &mut fmt::Formatter<W>) -> fmt::Result {
        match self {
            OpenCause::Listen { port, why } => {
                write!(f, "port {port} can't be listened on: {}", why.words())
            }
            OpenCause::Accept { why } => {
                write!(f, "a connection can't be taken in: {}", why.words())
            }
            OpenCause::Dial { port, why } => {
                write!(f, "port {port} can't be reached: {}", why.words())
            }
        }
    }
}

/// Why a call opened nothing.
#[derive(Clone, Copy, Debug, PartialEq, Eq)]
pub(crate) enum Refusal {
    /// The system refuses it.
    System(SystemWhy),
    /// Memory ran out, here or in the system.
    NoMemory,
}

// Whether this number of the system tells of too many open files.
fn is_many(number: Option<i32>) -> bool {
    match number {
        Some(number) => number == MANY_HERE || number == MANY_IN_ALL,
        None => false,
    }
}

// What is said by an error that isn't want of memory.
fn why_of(e: &Error) -> SystemWhy {
    if is_many(e.raw_os_error()) {
        return SystemWhy::TooManyFiles;
    }
    match e.kind() {
        ErrorKind::AddrInUse => SystemWhy::InUse,
        ErrorKind::PermissionDenied => SystemWhy::NotPermitted,
        ErrorKind::ConnectionRefused => SystemWhy::Refused,
        _ => SystemWhy::Other,
    }
}

/// What an error of the system says. Want of memory is told exactly where its kind is that.
pub(crate) fn read_error(e: &Error) -> Refusal
    ensures { (result ≡ Refusal.NoMemory) ↔ (error_kind e.now ≡ ErrorKind.OutOfMemory) }
{
    if e.kind() == ErrorKind::OutOfMemory {
        return Refusal::NoMemory;
    }
    Refusal::System(why_of(e))
}
