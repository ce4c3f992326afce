//! A queue between two threads, one that puts items and one that takes them: what was taken, and then what the queue holds, is
//! what was put, in order. An item can be offered without waiting, and is refused only where the queue was full.
#![tactic(auto)]

mod queue;
mod rule;

pub use queue::{Consumer, Producer, QueuePass, lend, offer, open, put, regain, take};
pub use rule::{Lend, Offered, Relay, Side, Taken, Whole};
