//! A client without its framer.
use crate::account::Account;
use crate::phase::Phase;
use mam_log::Log;
use sm_outbox::{Session, Submissions};

/// A client without its framer: its account, its log, its submissions, how many page requests it made, its session, and how
/// far its connection has come. A session without a connection waits to be resumed.
#[derive(Drop)]
pub struct ClientState {
    pub account: Account,
    pub log: Log,
    pub said: Submissions,
    pub pages: u64,
    pub session: Option<Session>,
    pub phase: Phase,
}
