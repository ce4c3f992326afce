//! Pipes: the two directions of a connection in a network that delays, cuts and loses bytes, and neither invents nor
//! reorders any.
#![tactic(auto)]

mod pipe;

pub use pipe::Pipe;
