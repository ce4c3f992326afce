//! What a client keeps to send again: its stanzas that the server has not acknowledged, in the session that can be resumed
//! (XEP-0198, sections 4 and 5), and the submissions among them. No call here knows of a stream or of an element.
#![tactic(auto)]

mod laws;
mod origins;
mod outbox;
mod said;
mod session;
mod submissions;

pub use laws::{
    counts_are_moves, puts_are_moves, resumptions_are_moves, waiting_submissions_are_queued,
};
pub use origins::origin_of;
pub use outbox::{Acknowledged, Outbox};
pub use said::{Said, SaidState};
pub use session::Session;
pub use submissions::Submissions;
