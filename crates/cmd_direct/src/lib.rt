//! The direct run of a schedule, as a definition: every message is taken at once and acknowledged, every page is answered
//! at once. And the law that its report keeps.
#![tactic(auto)]

mod laws;

pub use laws::direct_is_lawful;
