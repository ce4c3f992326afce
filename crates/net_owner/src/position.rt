//! The places of connections.
use crate::reader::ReaderJob;
use crate::worker::Worker;
use net_traits::Incoming;
use std::sync::Wait;

/// A connection's reader, where one was started, and whether its end was taken. Connection `k` stands at index `k - 1`.
#[derive(Drop)]
pub struct Slot<R: Wait + Drop, I: Incoming + Drop, P: Drop> {
    pub worker: Option<Worker<ReaderJob<R, I, P>>>,
    pub ended: bool,
}
