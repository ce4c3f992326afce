//! What a server does with a message (RFC 6121, section 8): which sessions it is delivered to, which get a copy
//! (XEP-0280), in whose archives it goes (XEP-0313), or the error that answers it.
#![tactic(auto)]

mod archiving;
mod laws;
mod messages;
mod planning;
mod recipients;
mod routes;

pub use archiving::Archiving;
pub use laws::{
    archives_ask_for_no_session, archives_have_it_once, copies_are_asked_for,
    errors_are_not_answered, no_address_is_ones_own, nobody_gets_it_twice, numbers_ascend,
    only_chats_fall_back, plans_ask_for_what_is_shown, private_messages_are_not_copied,
    recipients_live, senders_get_no_copy,
};
pub use planning::plan;
pub use routes::{Plan, Route};
