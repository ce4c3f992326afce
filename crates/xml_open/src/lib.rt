//! Elements whose end tags haven't come (XML 1.0, section 3.1), in pieces that take little memory: a tree is made of
//! them once the outermost one is whole.
#![tactic(auto)]

mod building;
mod opens;
mod pieces;

pub use opens::OpenElements;
