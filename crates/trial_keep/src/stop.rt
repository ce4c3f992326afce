//! Why the program ends before its input does.
use base_io::NoMemory;
use mam_keep::KeepFault;
use std::alloc::AllocError;
use std::io;

/// Why the program ends before its input does.
#[derive(Clone, Copy, Debug, PartialEq, Eq)]
pub(crate) enum Stop {
    /// A line says nothing that can be done.
    Line,
    /// A read or a write failed.
    Io,
    /// Memory ran out.
    NoMemory,
    /// The keeper failed.
    Keeper,
}

impl Stop {
    /// The program's status.
    pub(crate) fn status(self) -> u8 {
        match self {
            Stop::Line => 2,
            Stop::Io => 5,
            Stop::NoMemory => 6,
            Stop::Keeper => 12,
        }
    }
}

impl From<NoMemory> for Stop {
    fn from(_e: NoMemory) -> Stop {
        Stop::NoMemory
    }
}

impl From<AllocError> for Stop {
    fn from(_e: AllocError) -> Stop {
        Stop::NoMemory
    }
}

impl From<io::Error> for Stop {
    fn from(e: io::Error) -> Stop {
        if e.kind() == io::ErrorKind::OutOfMemory {
            Stop::NoMemory
        } else {
            Stop::Io
        }
    }
}

impl From<KeepFault> for Stop {
    fn from(e: KeepFault) -> Stop {
        match e {
            KeepFault::NoMemory => Stop::NoMemory,
            KeepFault::Failed => Stop::Keeper,
        }
    }
}
