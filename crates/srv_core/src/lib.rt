//! The server as a pure machine over events (RFC 6120, RFC 6121, XEP-0198): a connection comes, brings bytes and goes, and
//! time passes; what comes of it are outputs. Each row of its table is a list of small steps, made of the state before it.
#![tactic(auto)]

mod config;
mod items;
mod laws;
mod pieces;
mod ready;
mod restarting;
mod server;
mod stanzas;

pub use config::{Config, ConfigFault};
pub use laws::{items_join, outputs_tell, what_is_shut_stays_shut};
pub use ready::on_ready_or_bound;
pub use restarting::Archives;
pub use server::Server;
pub use srv_state::{Output, Outputs};
