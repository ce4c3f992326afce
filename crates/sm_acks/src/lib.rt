//! The counters of one end of a session, and its stanzas that are not yet acknowledged (XEP-0198, sections 3 and 4). They wait
//! in queues of one pool, so that room for a stanza can be made before anything is changed.
#![tactic(auto)]

mod end;
mod nodes;
mod pool;

pub use end::{AckEnd, MOST_UNACKNOWLEDGED, TooHigh};
pub use pool::{Pool, QueueId};
