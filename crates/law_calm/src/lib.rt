//! What comes of a device once the network is calm: in how many rounds its client is online, its session is resumed,
//! what it had put is handled, and nothing is under way any more.
#![tactic(auto)]

mod ends;
mod rounds;

pub use ends::{
    a_connection_stays_open_until_it_is_ended, a_counted_session_stays_until_it_is_ended,
    rounds_resume_unless_something_ends,
};
pub use rounds::{
    a_device_settles, a_session_that_stays_is_resumed, rounds_bring_the_client_online,
    what_is_under_way_comes_to_its_end, what_was_put_is_handled,
};
