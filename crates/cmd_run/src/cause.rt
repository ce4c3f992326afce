//! Why a call went out in vain.
//!
//! What is written tells the status's reason alone. Which it was is told beside it, to who reads standard error.
ghost use Rattle.std.specs.Prelude.{◌≡◌};
ghost use Rattle.cmd_run.specs.Tellings.{door_cause, fault_cause};

use base_io::Bytes;
use cmd_sync::{LinkFailure, PeerFailure};
use net_hub::HubFault;

/// Why a call went out in vain.
#[derive(Clone, Copy, Debug, PartialEq, Eq)]
pub enum Cause {
    /// The door failed: it knows more.
    Door,
    /// The dialer failed, which knows more, or its link did, or that ended.
    Link(LinkFailure),
    /// The server has to answer for it.
    Peer(PeerFailure),
}

// What is told of a fault, where that is the door's.
fn fault_cause(fault: HubFault) -> Option<Cause>
    ensures { result ≡ fault_cause fault }
{
    match fault {
        HubFault::LinkFault => Some(Cause::Door),
        _ => None,
    }
}

/// What is told of what came of serving, where that is a fault of the door.
pub(crate) fn door_cause(served: &Result<Bytes, HubFault>) -> Option<Cause>
    ensures { result ≡ door_cause served.now }
{
    match served {
        Ok(_) => None,
        Err(fault) => fault_cause(*fault),
    }
}
