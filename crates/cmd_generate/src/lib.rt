//! Schedules made of two numbers, and the summary of such a schedule's report.
#![tactic(auto)]

mod draws;
mod generated;
mod laws;
mod lines;
mod names;
mod numbered;
mod rows;
mod summary;

pub use generated::{MOST_SIZE, generate};
pub use laws::generated_schedules_may_run;
pub use summary::summary_text;
