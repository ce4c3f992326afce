//! The outside in memory: links, whole and in halves, doors, dialers, clocks and random bytes. Each call is foreseen, so that
//! what a server or a client does with them can be tried, short and failing calls among them.
#![tactic(auto)]

mod calls;
mod chance;
mod clock;
mod dialer;
mod door;
mod halves_door;
mod link;
mod link_half;
mod link_state;
mod memory_link;
mod shelf;
mod supply;
mod sure_link;
mod uncut;
mod unread;

pub use chance::MemoryEntropy;
pub use clock::MemoryClock;
pub use dialer::MemoryDialer;
pub use door::MemoryDoor;
pub use halves_door::{MemoryHalvesDoor, RoomedHalf};
pub use link::{Links, MemoryLink};
pub use link_half::{ReadingHalf, WritingHalf};
pub use link_state::LinkState;
pub use memory_link::UncutMemoryLink;
pub use shelf::Shelf;
pub use sure_link::SureLink;
pub use uncut::Uncut;
