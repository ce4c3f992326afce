//! Files of intents: a wire schedule in which some messages are intents, and some lines resolve what became of them.
#![tactic(auto)]

mod file;
mod reading;
mod rewriting;

pub use file::IntentFile;
pub use reading::read_intents;
pub use rewriting::MOST_LINES;
