//! Laws of a server that serves connections at the same time: what is done again from its journal.
#![tactic(auto)]

mod laws;

pub use laws::{journal_is_rerun, rerun_puts_the_same};
