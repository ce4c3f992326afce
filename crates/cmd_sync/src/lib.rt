//! A client that does a script over one connection: it logs in, does each step, and closes the stream. Scripts, their grammar
//! and their reading; and the text of what the client took over.
#![tactic(auto)]

mod conditions;
mod course;
mod events;
mod failure;
mod fields;
mod log_lines;
mod logged;
mod pieces;
mod progress;
mod reading;
mod rounds;
mod running;
mod script;
mod script_fault;
mod script_laws;
mod script_lines;
mod seen;
mod stage;
mod steps;
mod sync_fault;
mod sync_laws;
mod synced;
mod talk;
mod told;

pub use conditions::SentCondition;
pub use failure::{LinkFailure, PeerFailure};
pub use reading::read_script;
pub use running::{MOST_RECEIVED, sync};
pub use script::{Script, Step, Steps, User};
pub use script_fault::ScriptFault;
pub use script_laws::reading_is_the_grammar;
pub use sync_fault::SyncFault;
pub use sync_laws::a_closed_script_is_done_whole;
pub use synced::synced_text;
