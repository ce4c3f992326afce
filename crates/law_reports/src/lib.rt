//! Laws of reports, of direct schedules and of wire schedules: their text can be read, and tells them apart.
#![tactic(auto)]

mod direct_reports;
mod wire_reports;

pub use direct_reports::{
    direct_reports_are_read_back, direct_reports_are_readable, direct_reports_are_told_apart,
};
pub use wire_reports::{runs_are_readable, runs_are_told_apart};
