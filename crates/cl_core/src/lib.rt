//! A client as a machine (RFC 6120, RFC 6121): from the calls of its user and the bytes of its server to the bytes that go
//! out and what is told. It knows of no socket and of no clock. Each call is exactly the step of the client's table
//! (`specs/`). Where memory runs out a call of the user changes nothing, and of a piece of bytes the first items had their
//! effect, and the connection is left. That no submission is lost or doubled over a cut is not said here: it is a law of both
//! ends and the network.
#![tactic(auto)]

mod client;
mod faults;
mod making;
mod online;
mod page_requests;
mod pages;
mod replacing;
mod requests;
mod steps;
mod user;

pub use cl_handlers::{CatchUpFault, ClientOut, Event, Events, PeerFault};
pub use client::Client;
pub use faults::{CatchUpStart, ClientFault, SayFault};
pub use user::OUTBOX_BOUND;
