//! The outside of a server and of a client, as traits: links that carry bytes both ways, whole or in halves, doors and dialers
//! that hand them out, clocks, and sources of random bytes. What their calls do is told of their meanings, and each failure
//! is counted.
#![tactic(auto)]

mod chance;
mod clock;
mod dialer;
mod door;
mod fault;
mod given_back;
mod halves_door;
mod incoming;
mod joined;
mod link;
mod outgoing;
mod pair;

pub use chance::Entropy;
pub use clock::{Clock, LAST_MOMENT_TOLD};
pub use dialer::Dialer;
pub use door::Door;
pub use fault::OpenFault;
pub use given_back::{GivenBack, put_back};
pub use halves_door::Halves;
pub use incoming::Incoming;
pub use joined::JoinedLink;
pub use link::{Link, send_whole};
pub use outgoing::{Outgoing, write_whole};
pub use pair::Pair;
