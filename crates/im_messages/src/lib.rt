//! What a server and a client make of a message's payload: its bodies (RFC 6121, section 5.2.3), the payload without ids
//! that an account gives itself (XEP-0359), and the entry that an archive keeps (XEP-0313, section 4.2).
#![tactic(auto)]

mod bodies;
mod entries;

pub use bodies::bodies_of;
pub use entries::message_entry;
