//! Why connections were not served together.
ghost use Rattle.std.specs.Prelude.{◌≡◌};
ghost use Rattle.net_hub.specs.Faults.{of_door};
ghost use Rattle.net_hub.specs.declared.fault.HubFault.TheVariants.{NoMemory as WantOfMemory};

use base_io::NoMemory;
use cmd_schedule::LineWhy;
use net_traits::OpenFault;
use std::error::Error;
use std::fmt;

/// Why connections were not served, or not all of them.
#[derive(Clone, Copy, Debug, PartialEq, Eq)]
pub enum HubFault {
    /// The accounts are no accounts file: its first bad line, counted from 1, and its first reason.
    BadLine { line: u64, why: LineWhy },
    /// The door failed.
    LinkFault,
    /// A worker could not be started.
    NoWorker,
    /// The source of random bytes failed.
    EntropyFault,
    /// Memory ran out.
    NoMemory,
}

impl fmt::Display for HubFault {
    fn fmt<W: fmt::Write>(&self, f: &mut fmt::Formatter<W>) -> fmt::Result {
        match self {
            HubFault::BadLine { line, .. } => write!(f, "line {line} of the accounts is bad"),
            HubFault::LinkFault => f.write_str("the door failed"),
            HubFault::NoWorker => f.write_str("a worker could not be started"),
            HubFault::EntropyFault => f.write_str("the source of random bytes failed"),
            HubFault::NoMemory => f.write_str("out of memory"),
        }
    }
}

impl Error for HubFault {}

impl From<NoMemory> for HubFault {
    ghost from_gives = { λ _ e. e ≡ WantOfMemory };

    fn from(_e: NoMemory) -> HubFault {
        HubFault::NoMemory
    }
}

/// What a fault of the door is to the server: want of memory stays that.
pub(crate) fn of_door(fault: OpenFault) -> HubFault
    ensures { result ≡ of_door fault }
{
    match fault {
        OpenFault::Failed => HubFault::LinkFault,
        OpenFault::NoMemory => HubFault::NoMemory,
    }
}
