//! Connections, and where each stands (RFC 6120, sections 4 to 7).
//!
//! A connection that is bound has no phase of its own: it has logged in, and a session is on it.
use srv_login::Negotiation;

/// What the server awaits of a connection that is open. In `Ready` it is bound where a session is on it.
#[derive(Drop)]
pub enum Phase {
    /// The first header (RFC 6120, section 4.3).
    Start,
    /// A login (RFC 6120, section 6.4.2).
    Login,
    /// The answer to a challenge (RFC 6120, section 6.4.3).
    Challenge(Negotiation),
    /// The header behind a login (RFC 6120, section 6.4.6).
    Restart { account: u32 },
    /// A binding or a resumption, or what a session says (RFC 6120, section 7; XEP-0198, section 5).
    Ready { account: u32 },
}

/// The phase without the exchange that is in hand.
#[derive(Clone, Copy, Debug, PartialEq, Eq)]
pub enum Stage {
    Start,
    Login,
    Challenge,
    Restart { account: u32 },
    Ready { account: u32 },
}

/// How often a client may still fail to log in on this stream (RFC 6120, section 6.4.5, asks for 2 at least).
#[derive(Clone, Copy, Debug, PartialEq, Eq)]
pub enum Tries {
    Three,
    Two,
    One,
}

/// A connection that is open: the bytes that were drawn for it, and where it stands.
#[derive(Drop)]
pub struct Connection {
    pub entropy: [u8; 24],
    pub phase: Phase,
    pub tries: Tries,
}

/// Where a connection stands, as a copy.
#[derive(Clone, Copy)]
pub struct Standing {
    pub stage: Stage,
    pub tries: Tries,
    pub entropy: [u8; 24],
}
