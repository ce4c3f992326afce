//! What a server put out on its connections.
use base_io::{Bytes, ListOf};

/// One thing that was put out.
#[derive(Drop)]
pub enum Output {
    /// Bytes for a connection.
    Put { connection: u64, bytes: Bytes },
    /// The connection was shut.
    Shut { connection: u64 },
}

/// What was put out, in order.
pub type Outputs = ListOf<Output>;
