//! Laws of a server's table, beside those of `srv_core`. A server of bytes encodes a server of items at every event;
//! what it tells of messages that it took is what its archives get; a message goes out live to the sessions that it is for,
//! and to no other account; and a session is only where its account's password was proved.
#![tactic(auto)]

mod gone_sessions;
mod live_messages;
mod nonces;
mod proved_logins;
mod server_maps;
mod server_tables;
mod told_takes;

pub use gone_sessions::{
    a_count_that_is_too_high_ends_its_session, a_shut_session_is_gone,
    events_are_those_of_the_server,
};
pub use live_messages::{
    connections_get_what_is_theirs, copies_have_the_message, copies_reach_their_sessions,
    messages_are_archived, messages_go_to_their_accounts, messages_reach_their_sessions,
    what_is_passed_on_is_the_message, what_is_sent_is_put,
};
pub use nonces::nonces_are_told_apart;
pub use proved_logins::{servers_are_sound_after_events, sessions_are_of_proved_accounts};
pub use server_maps::{
    bytes_are_the_items_written, events_are_the_same_however_written,
    moments_are_the_same_however_written, relations_are_the_same_however_written,
};
pub use server_tables::{
    a_resumption_time_that_is_told_is_kept, answers_tell_of_ones_own, each_request_is_answered,
    pieces_join, requests_are_of_their_session, steps_leave_others,
    table_is_the_same_however_written, too_high_counts_change_no_queue,
};
pub use told_takes::{archives_get_what_is_told, servers_stay_sound};
