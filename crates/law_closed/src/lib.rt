//! What a server puts for a connection that it shut, or that is gone: nothing.
#![tactic(auto)]

mod laws;

pub use laws::who_is_not_open_is_told_nothing;
