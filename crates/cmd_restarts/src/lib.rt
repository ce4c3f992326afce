//! Files of restarts: a wire schedule in which the server stops at some lines, and is started again.
#![tactic(auto)]

mod file;
mod reading;
mod rewriting;

pub use file::RestartFile;
pub use reading::read_restarts;
