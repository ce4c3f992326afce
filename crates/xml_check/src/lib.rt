//! What is to be told of one direction of an XMPP stream: its items as they are written, or where it is wrong (RFC
//! 6120, sections 4 and 11).
#![tactic(auto)]

mod checking;
mod lines;

pub use checking::{Checked, check};
