//! Why a script was not done.
ghost use Rattle.std.specs.Prelude.{◌≡◌};
ghost use Rattle.cmd_sync.specs.declared.sync_fault.Stop.TheVariants.{NoMemory as StopForMemory};
ghost use Rattle.cmd_sync.specs.declared.sync_fault.SyncFault.TheVariants.{NoMemory as SyncForMemory};

use crate::failure::{LinkFailure, PeerFailure};
use base_io::NoMemory;
use cmd_schedule::LineWhy;

/// Why a script was not done.
#[derive(Clone, Copy, Debug, PartialEq, Eq)]
pub enum SyncFault {
    /// The bytes are no script's text: this is the first bad line, counted from 1, and its first reason.
    BadLine { line: u64, why: LineWhy },
    /// No connection was made, or a read or a write failed, or the connection ended, before the script was done: which of them
    /// it was.
    Link(LinkFailure),
    /// The server has to answer for it.
    Peer(PeerFailure),
    /// No random bytes were drawn.
    Entropy,
    /// Memory ran out.
    NoMemory,
}

impl From<NoMemory> for SyncFault {
    ghost from_gives = { λ _ e. e ≡ SyncForMemory };

    fn from(_e: NoMemory) -> SyncFault {
        SyncFault::NoMemory
    }
}

/// Why a talk over a link stopped.
#[derive(Clone, Copy, Debug, PartialEq, Eq)]
pub enum Stop {
    /// No link was handed out, a read or a write failed, or the link ended: which of them it was.
    Link(LinkFailure),
    /// Memory ran out.
    NoMemory,
}

impl From<NoMemory> for Stop {
    ghost from_gives = { λ _ e. e ≡ StopForMemory };

    fn from(_e: NoMemory) -> Stop {
        Stop::NoMemory
    }
}
