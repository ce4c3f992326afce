//! The sessions that live, each with its stanzas that wait to be acknowledged (RFC 6120 section 7, XEP-0198 sections 3
//! to 5): the table of sessions and the pool of stanzas as one, which contracts see as a list.
#![tactic(auto)]

mod binding;
mod counts;
mod laws;
mod live;
mod lookups;
mod reservation;
mod resuming;
mod told;

pub use laws::{counts_are_moves, puts_are_moves, resumptions_are_moves};
pub use live::Live;
pub use reservation::ReservationFault;
pub use told::SessionInfo;
