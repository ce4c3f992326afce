//! Schedules: their lines, their grammar, and the reading of their text. The readers of lines and fields serve other texts
//! of lines too.
#![tactic(auto)]

mod decimals;
mod fault;
mod fields;
mod heading;
mod line_lists;
mod lines;
mod names;
mod reading;
mod schedule;
mod steps;
mod wire_steps;

pub use decimals::{number_within, read_number};
pub use fault::{LineFault, LineWhy, ScheduleFault, wants};
pub use fields::{cut_word, is_name, is_text, last_field, next_field, rest_field};
pub use line_lists::schedules_are_line_lists;
pub use lines::{first_line, spelled};
pub use reading::{read_schedule, reading_is_the_grammar};
pub use schedule::{
    Count, DirectSchedule, Line, Lines, MOST_DIALS, MOST_KEPT, MOST_NUMBER, MOST_TICK, MOST_TIMES,
    MOST_TIMES_TOGETHER, Schedule, Step, Version, WireLine, WireLines, WireSchedule, WireStep,
};
