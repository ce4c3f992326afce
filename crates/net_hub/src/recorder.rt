//! A server, what happened to it, and the halves of its connections.
use crate::sender::Sender;
use cmd_journal::{AccountsFile, Event};
use srv_core::Server;
use std::alloc::Global;

/// A server of the accounts of a file, the events that it took, and the half of each connection: that of connection `k` stands
/// at index `k - 1`.
#[derive(Drop)]
pub struct Recorder<O: Drop> {
    pub alloc: Global,
    pub file: AccountsFile,
    pub server: Server,
    pub events: Vec<Event>,
    pub senders: Vec<Sender<O>>,
}
