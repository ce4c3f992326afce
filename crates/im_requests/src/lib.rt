//! What a client says of its own behind its login, each as the bytes that are sent: how it has a session (RFC 6120,
//! section 7; XEP-0198), what it submits (RFC 6121, section 5.2), and what it asks of its archive (XEP-0313).
#![tactic(auto)]

mod messages;
mod sessions;
mod spelling;

pub use messages::{PageRequest, Submission, page, queryid, submitted};
pub use sessions::{available, bind, carbons, enable, resume};
