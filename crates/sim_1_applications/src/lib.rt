//! The two applications over sessions that may stop at any time, as definitions: what the server takes, archives and
//! answers, what a client says, asks for and logs. No connection, count or handshake occurs. Twelve events are all that
//! can happen; the laws hold of every state that they reach, and of the reports that runs make.
#![tactic(auto)]

mod first_version;
mod lawful_runs;
mod session_counts;
mod sessions;

pub use first_version::sessions_keep_laws;
pub use lawful_runs::{answers_are_pages, runs_are_reported, sessions_are_lawful};
pub use session_counts::{
    each_turn_asks_once, pages_begin_one_by_one, requests_are_few, says_are_counted,
    stanzas_are_few, takes_are_counted,
};
pub use sessions::{
    each_event_keeps, logs_have_what_is_kept, messages_are_taken_once_in_order,
    reached_states_are_kept, settled_devices_await_no_page, takes_after_a_bind_are_new,
};
