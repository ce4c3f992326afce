//! Laws. Wire schedules, and longer lists of their lines, beside runs of the two applications, and the laws of their reports.
#![tactic(auto)]

mod binds;
mod calm;
mod each_move;
mod faults;
mod first_lines;
mod first_worlds;
mod histories;
mod intents;
mod late_words;
mod lawful;
mod laws_kept;
mod lines;
mod refused_lines;
mod reports_of_worlds;
mod runs;

pub use binds::{nothing_older_is_taken_after_a_bind, nothing_older_is_taken_after_a_handled_bind};
pub use calm::{
    connected_devices_come_online, dialled_devices_are_connected, dialled_sessions_are_resumed,
    lone_connections_end_by_a_full_queue, open_connections_stay_open,
    what_connected_devices_said_is_taken,
};
pub use each_move::each_move_runs;
pub use faults::{no_page_fails, streams_end_for_few_reasons};
pub use first_lines::schedules_begin;
pub use first_worlds::worlds_begin;
pub use histories::{sessions_are_pairs, what_is_shut_changes_nothing};
pub use intents::{intents_are_tried_again_where_absent, intents_of_files_are_taken_once_at_most};
pub use late_words::late_words_change_no_archive;
pub use lawful::{
    line_lists_are_lawful, line_lists_are_readable, line_lists_are_told_apart,
    wire_schedules_are_lawful, wire_schedules_are_readable, wire_schedules_are_told_apart,
};
pub use laws_kept::schedules_that_run_are_lawful;
pub use lines::lines_run;
pub use refused_lines::{lines_are_answered, lines_are_refused, moves_leave_refused};
pub use reports_of_worlds::{reports_run, worlds_represent};
pub use runs::{
    a_run_is_rounds, connected_devices_are_online, sessions_that_stay_are_resumed,
    what_was_said_is_taken,
};
