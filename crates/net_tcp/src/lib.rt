//! The outside over the system: sockets of this machine, whole and in halves, its clock and its random bytes.
#![tactic(auto)]

mod cause;
mod door;
mod incoming;
mod letting_go;
mod outgoing;
mod returns;
mod system_clock;
mod system_entropy;
mod tcp_dialer;
mod tcp_door;
mod tcp_link;

pub use cause::{OpenCause, SystemWhy};
pub use door::TcpHalvesDoor;
pub use incoming::TcpIncoming;
pub use letting_go::LetGo;
pub use outgoing::TcpOutgoing;
pub use system_clock::SystemClock;
pub use system_entropy::SystemEntropy;
pub use tcp_dialer::TcpDialer;
pub use tcp_door::TcpDoor;
pub use tcp_link::TcpLink;
