//! Why a keeper did not answer.
//!
//! Want of memory leaves a keeper's count of faults, and an Ok too: only `Failed` raises it (`HasKeepCause`).
use base_io::NoMemory;
use std::error::Error;
use std::fmt;

/// Why nothing was loaded, or a change may not have been made.
#[derive(Clone, Copy, Debug, PartialEq, Eq)]
pub enum KeepFault {
    /// The store failed, or has what can't be an answer. It comes only from a call in which the count of faults rose.
    Failed,
    /// Memory ran out.
    NoMemory,
}

impl fmt::Display for KeepFault {
    fn fmt<W: fmt::Write>(&self, f: &mut fmt::Formatter<W>) -> fmt::Result {
        f.write_str(match self {
            KeepFault::Failed => "the keeper failed",
            KeepFault::NoMemory => "out of memory",
        })
    }
}

impl Error for KeepFault {}

impl From<NoMemory> for KeepFault {
    ghost use Rattle.std.specs.Prelude.{◌≡◌};
    ghost use Rattle.mam_keep.specs.declared.fault.KeepFault.TheVariants.{NoMemory as OutOfMemory};

    ghost from_gives = { λ _ fault. fault ≡ OutOfMemory };

    fn from(_e: NoMemory) -> KeepFault {
        KeepFault::NoMemory
    }
}
