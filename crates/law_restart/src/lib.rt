//! What is so of a server at all times, and the law of the restart: a server whose connections are gone, and whose sessions
//! can be resumed no more, is one that is started again with its archives.
#![tactic(auto)]

mod laws;

pub use laws::{
    a_restart_is_like_a_long_pause, archives_stay_with_their_accounts,
    blank_archives_begin_a_server, servers_stand,
};
