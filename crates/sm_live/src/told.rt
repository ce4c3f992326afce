//! What is told of a session.

/// What the rules for stanzas ask of a session. All else that is told of it `Live::view` has.
#[derive(Clone, Copy)]
pub struct SessionInfo {
    /// Its number, which no other session ever gets.
    pub number: u64,
    /// Its account, by the account's place in the configuration.
    pub account: u32,
    /// Its connection; none while it is parked.
    pub conn: Option<u64>,
    /// Whether it announced that it is available (RFC 6121 section 4.2).
    pub available: bool,
    /// The priority of its last presence (RFC 6121 section 4.7.2.3).
    pub priority: i8,
    /// Whether it asked for copies of the account's messages (XEP-0280).
    pub carbons: bool,
    /// Whether its stanzas are counted (XEP-0198 section 3).
    pub counted: bool,
    /// Whether it was asked for its count of handled stanzas, and has not answered (XEP-0198 section 4).
    pub asked: bool,
    /// How many stanzas of the peer were handled, modulo 2^32 (XEP-0198 section 4).
    pub handled: u32,
    /// How many of its own stanzas wait to be acknowledged.
    pub waiting: u64,
}
