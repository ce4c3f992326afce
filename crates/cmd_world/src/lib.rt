//! The world of a wire schedule: a server and the clients of devices, and between them a network that delays, cuts and loses
//! bytes. It is followed byte by byte, and the same schedule gives the same world.
#![tactic(auto)]

mod accounts;
mod dialing;
mod hearing;
mod outputs;
mod report;
mod restarting;
mod runs;
mod seeing;
mod serving;
mod steps;
mod users;
mod world;

pub use runs::wire_report;
pub use world::World;
