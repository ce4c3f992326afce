//! What one end puts is plain and within the limits of the other, so that it is read as it is: how long texts, tags and
//! elements are as they are written, what a server puts, what a client says, and what a schedule names.
#![tactic(auto)]

mod client_fits;
mod put_fits;
mod requests_fit;
mod schedules_fit;
mod server_fits;
mod sizes;

pub use client_fits::{what_a_client_puts_fits, what_is_short_can_be_answered};
pub use put_fits::{
    answers_are_read, entries_fit, forwarded_messages_are_read, logins_are_read,
    management_is_read, streams_are_read,
};
pub use requests_fit::what_a_client_says_fits;
pub use schedules_fit::schedules_keep_to_the_bounds;
pub use server_fits::{
    a_server_begins_so, moments_keep_what_is_read, what_a_framer_gives_comes,
    what_a_server_puts_is_read,
};
pub use sizes::{addresses_are_short, elements_are_put_together, texts_are_put_together};
