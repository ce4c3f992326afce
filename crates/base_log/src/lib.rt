//! A history that contracts alone read.
#![tactic(auto)]

mod log;

pub use log::Log;
