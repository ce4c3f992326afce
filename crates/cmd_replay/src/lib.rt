//! The direct run of a schedule, as its definition says.
#![tactic(auto)]

mod run;

pub use run::direct;
