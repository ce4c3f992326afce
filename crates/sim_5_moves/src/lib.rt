//! Laws. Moves of a world of items, beside events of the two applications.
#![tactic(auto)]

mod answers;
mod clients;
mod clock;
mod connections;
mod devices;
mod down_moves;
mod flags_kept;
mod grounds_known;
mod messages;
mod one_device;
mod replies;
mod server_words;
mod servers;
mod session_words;
mod silent_worlds;
mod stanza_events;
mod stanzas;
mod user_calls;
mod users;
mod words_run;

pub use answers::{messages_are_answered, replies_are_answers};
pub use clients::stanzas_come_down;
pub use clock::{ends_run, silent_words_go_up, ticks_run};
pub use connections::{moves_that_do_nothing_run, refused_calls_run};
pub use devices::{devices_are_paged, what_is_built_stays};
pub use down_moves::{cuts_run, dials_run, downs_run, ends_are_told_run, silent_words_come_down};
pub use flags_kept::flags_stay;
pub use grounds_known::grounds_are_known;
pub use messages::{hearing_is_that_of_the_applications, messages_are_heard};
pub use one_device::{acts_come_after_session_steps, one_device_acts};
pub use replies::{replies_are_served, replies_leave_the_server_running};
pub use server_words::{
    bindings_leave_the_server_running, non_stanza_items_leave_the_server_running,
    other_events_leave_the_server_running, stanzas_are_counted_and_handled,
};
pub use servers::{requests_are_placed, stanzas_go_up, ups_run};
pub use session_words::session_words_come_down;
pub use silent_worlds::silent_worlds_run;
pub use stanza_events::{labels_are_handled, messages_are_events, replies_are_events};
pub use stanzas::{messages_are_given, stanzas_are_given};
pub use user_calls::{calls_run, catch_ups_run, says_run};
pub use users::users_run;
pub use words_run::{flags_follow_sessions, stanzas_are_steps, words_leave_the_server_running};
