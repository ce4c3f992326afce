//! What the server admits.

/// The most bytes of a stanza as it is written. What is delivered is written anew, and escapes can make it longer than
/// what came.
pub const MOST_STANZA_BYTES: u64 = 1_048_576;

/// How many stanzas wait to be acknowledged where the client is asked for its count (XEP-0198, section 4).
pub const ASKS_AT: u64 = 10;
