//! What a client is, and rows of its table: those up to its session (RFC 6120, sections 4 to 7; XEP-0198, sections 3 and 5),
//! those of acknowledgements (XEP-0198, section 4), and those of messages. Each row takes all memory first; then calls follow
//! that can't fail.
#![tactic(auto)]

mod account;
mod acknowledgements;
mod answers;
mod binding;
mod client_state;
mod events;
mod login;
mod messages;
mod phase;

pub use account::Account;
pub use answers::make_room;
pub use binding::is_stanza;
pub use client_state::ClientState;
pub use events::{CatchUpFault, ClientOut, Event, Events, PeerFault};
pub use phase::Phase;
