//! The owner of the queue.
use crate::item::Item;
use crate::position::Slot;
use crate::queue::{Receipt, Receiving, Sending};
use crate::trouble::Trouble;
use net_traits::Incoming;
use std::alloc::Global;
use std::sync::Wait;

/// What the owner works with: the queue, its pass, the places of the connections, what takes their events, whether no more
/// connections are taken in, and what went wrong first.
#[derive(Drop)]
pub struct Owner<R: Wait + Drop, I: Incoming + Drop, P: Drop, T: Drop> {
    pub rt: R,
    pub alloc: Global,
    pub to: Sending<Item<P>>,
    pub at: Receiving<Item<P>>,
    pub pass: Receipt<Item<P>>,
    pub positions: Vec<Slot<R, I, P>>,
    pub taker: T,
    pub closed: bool,
    pub met: Option<Trouble>,
}
