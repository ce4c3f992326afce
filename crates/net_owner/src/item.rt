//! What the workers send to the owner of the queue.
ghost use Rattle.std.specs.Prelude.{◌≡◌, ◌<◌, length, IfOk};

use crate::rule::Sent;
use base_io::{Bytes, NoMemory};
use std::alloc::Global;

/// Bytes that were read: at least one.
#[derive(Drop)]
pub struct Piece {
    pub bytes: Bytes,
    pub ghost some: { 0 < length bytes.items },
}

impl Piece {
    /// These bytes, copied.
    pub fn from_slice(alloc: Global, bytes: &[u8]) -> Result<Piece, NoMemory>
        requires { 0 < length bytes.now }
        ensures { IfOk result (λ piece. piece.bytes.items ≡ bytes.now) }
    {
        let bytes = Bytes::from_slice(alloc, bytes)?;
        Ok(Piece { bytes })
    }
}

/// What a worker tells the owner. A connection that came in is a `P`.
#[derive(Drop)]
pub enum What<P> {
    /// The acceptor: this connection came in.
    Came(P),
    /// A reader: these bytes were read.
    Gave(Piece),
    /// A reader: a read failed, or found the end, or enough was read.
    Ended,
    /// The acceptor: no more connections are taken in.
    Closed,
    /// A reader: it goes no further, since it wants memory.
    Wanted,
}

/// What a worker tells, with its number: 0 is the acceptor, and `k` the reader of connection `k`.
#[derive(Drop)]
pub struct Item<P> {
    pub from: u64,
    pub what: What<P>,
}

impl<P> Sent for Item<P> {
    ghost from = { λ x. x.from };
}
