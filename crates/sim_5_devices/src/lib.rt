//! Laws. What a device does: its labels as events, and in time, and what its client has by them.
#![tactic(auto)]

mod exchanges;
mod labels_in_time;
mod links_in_time;
mod log_readings;
mod logs;
mod readings_known;
mod session_labels;
mod submissions;

pub use exchanges::catch_ups_end_over_a_session;
pub use labels_in_time::{labels_are_in_time, pages_are_in_time};
pub use links_in_time::{links_stay_in_time, queues_are_short, settled_is_at_rest};
pub use log_readings::{calls_on_logs_are_steps_of_readings, pages_are_taken_over};
pub use logs::{full_clients_leave, histories_are_plain, stanzas_are_logged};
pub use readings_known::{histories_of_worlds_are_plain, readings_are_known};
pub use session_labels::{
    labels_are_done_in_sessions, session_steps_are_events, session_steps_come_first,
    stanzas_are_given_at_once,
};
pub use submissions::{
    catch_ups_told, counts_told, requests_told, says_told, servers_tell_nothing, sessions_told,
};
