//! Files of intents, run: which lines they stand for. An intent line is a message; a resolve line submits again what surely
//! wasn't taken, or asks for the archive.
#![tactic(auto)]

mod laws;

pub use laws::{files_are_line_lists, files_come_to_worlds_of_schedules};
