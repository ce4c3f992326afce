//! Worlds whose pipes hold whole items in place of bytes: the same server and the same clients, over items. How such a world
//! shows the links of a device and the two applications.
#![tactic(auto)]

mod laws;

pub use laws::{answers_are_read, deliveries_are_read, requests_are_read, submissions_are_read};
