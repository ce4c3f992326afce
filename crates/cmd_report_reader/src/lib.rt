//! Reports are read from their text, so that it tells all that they tell.
#![tactic(auto)]

mod device_parts;
mod fields;
mod heading;
mod laws;
mod line;
mod line_reading;
mod part_reading;
mod reading;
mod so_far;
mod texts;

pub use laws::{reports_are_read_back, reports_are_told_apart};
pub use reading::read_report;
