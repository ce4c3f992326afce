//! A server serves several connections at the same time, and writes a journal of what happened (RFC 6120, RFC 6121): an acceptor
//! takes them in, a reader reads each, and one owner takes all that they read, one piece after another. What the server puts
//! for a connection goes out on its half, in order, until a write fails: what one event puts for it is joined, and written at
//! once.
#![tactic(auto)]

mod bundle;
mod ending;
mod facts;
mod fault;
mod giving;
mod joining;
mod journal;
mod recorder;
mod recording;
mod sender;
mod sending;
mod serving;
mod settling;
mod taking;
mod together;

pub use bundle::Bundle;
pub use fault::HubFault;
pub use joining::{Bundles, join};
pub use journal::journal_of;
pub use recorder::Recorder;
pub use sender::Sender;
pub use sending::{close, close_all, send_all};
pub use serving::serve_started;
pub use together::serve_together;
