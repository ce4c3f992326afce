//! Files that are read as the wire schedules that they are but for line 1 and for some words: what such files have in common.
#![tactic(auto)]

mod headings;
mod rewritten;

pub use headings::{heading, push_ending, push_with_rest};
pub use rewritten::read_wire_schedule;
