//! Files of intents, run: their worlds are found line by line, and what became of each intent is written.
#![tactic(auto)]

mod answering;
mod lists;
mod looking;
mod passing;
mod resolving;
mod starting;
mod submitting;
mod taking;
mod texts;
mod watch;

pub use answering::resolved_bytes;
pub use resolving::resolve;
pub use texts::intents_text;
pub use watch::Watch;
