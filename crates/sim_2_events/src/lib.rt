//! What the links of a device tell its two applications, as acts of these: each move of the links is nothing to them, or
//! an act whose premise is met; and how large the counts of the links become, by what the users did.
#![tactic(auto)]

mod link_counts;
mod link_events;

pub use link_counts::{counts_are_those_of_sessions, runs_are_countable};
pub use link_events::{acts_are_told_by_events, moves_are_acts_of_sessions};
