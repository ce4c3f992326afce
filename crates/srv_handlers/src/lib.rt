//! What a session says, row by row: a resource is bound, a session is resumed, requests, and messages (RFC 6120, sections 7
//! and 8; RFC 6121, section 8; XEP-0198). Each row takes all memory first; then calls follow that can't fail.
#![tactic(auto)]

mod archives;
mod asking;
mod bindings;
mod carrying;
mod copies;
mod deliveries;
mod entries;
mod envelopes;
mod managements;
mod messages;
mod outgoing_stanzas;
mod queries;
mod request;
mod requests;
mod resuming;

pub use bindings::on_bind;
pub use managements::{on_ack, on_enable, on_request, refuse};
pub use messages::on_message;
pub use request::Request;
pub use requests::on_iq;
pub use resuming::on_resume;
