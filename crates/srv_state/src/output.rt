//! What the server puts out.
use base_io::{Bytes, ListOf, Text};

/// One thing that the server puts out.
#[derive(Drop)]
pub enum Output {
    /// Bytes for a connection: a header with its declaration, a whole element, or a footer.
    Put { conn: u64, bytes: Bytes },
    /// The connection is shut, and no longer known.
    Shut { conn: u64 },
    /// A message was archived: its addresses, and the id of its first `origin-id`, empty where it has none (XEP-0359).
    Took { from: Text, to: Text, origin: Text },
}

/// Outputs, in order.
pub type Outputs = ListOf<Output>;
