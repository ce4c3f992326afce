//! A submission: a message that the user gave the client to send.
use base_io::Text;

/// What is known of a submission.
#[derive(Clone, Copy, Debug, PartialEq, Eq)]
pub enum SaidState {
    /// The server acknowledged it (XEP-0198 section 4).
    Acknowledged,
    /// It waits in the queue of the session, and is sent again where the session is resumed.
    Waiting,
    /// The session ended before it was acknowledged: whether the server took it isn't known.
    Undecided,
}

/// A submission.
#[derive(Drop)]
pub struct Said {
    /// How many sessions were bound when it was accepted.
    pub epoch: u64,
    /// Its number in the epoch, from 1.
    pub n: u64,
    /// The recipient's address.
    pub to: Text,
    pub text: Text,
    /// Whether no copy is made of it (XEP-0280 section 8).
    pub private: bool,
    pub state: SaidState,
}
