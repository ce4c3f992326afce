//! A call of the program `xmpp`: its words, what is answered to them and to its input, what it writes, and its exit status.
#![tactic(auto)]

mod answer;
mod answering;
mod cause;
mod command;
#[cfg(test)]
mod ended;
mod laws;
mod outcome;
mod outside;
mod running;
mod surroundings;
#[cfg(test)]
mod tests;
mod texts;

pub use cause::Cause;
pub use laws::wire_reports_are_of_their_worlds;
pub use outside::{Outside, drop_outside};
pub use running::run;
pub use texts::USAGE;
