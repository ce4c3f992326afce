//! Laws. A world of items beside the links of each device: each of its moves is moves of the links.
#![tactic(auto)]

mod clients_hear;
mod clients_speak;
mod connections;
mod others;
mod servers;
mod stanzas;
mod worlds;

pub use clients_hear::{
    acknowledgements_are_read, ends_are_read, logins_are_read, sessions_are_read,
};
pub use clients_speak::{
    accounts_have_bare_addresses, catch_ups_follow, stanzas_are_read, submissions_follow,
    what_a_client_puts_is_taken,
};
pub use connections::{
    closes_follow, cuts_follow, dials_follow, ends_are_told, forgets_follow,
    moves_of_nobody_do_nothing, others_are_left, steps_follow, turns_follow, words_come_down,
};
pub use others::{connections_come_beside, ends_leave_others, words_leave_others};
pub use servers::{
    acknowledgements_follow, bindings_follow, ends_follow, footers_follow, items_are_words,
    logins_follow, moments_follow, other_devices_stay, resumptions_follow,
};
pub use stanzas::{stanzas_follow, stanzas_reach_others};
pub use worlds::{
    ends_go_up, headers_come_first, items_go_down, items_go_up, servers_stand, ticks_follow,
    users_are_followed,
};
