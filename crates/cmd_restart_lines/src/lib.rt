//! Files of restarts, run: which lines they stand for, and what these make of the server. At a restart each connection is cut
//! and gone, and time passes for as long as a session can be resumed.
#![tactic(auto)]

mod laws;

pub use laws::{
    a_restart_starts_the_server_again, files_are_line_lists, files_come_to_worlds_of_schedules,
};
