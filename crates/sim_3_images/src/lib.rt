//! Laws. Worlds of bytes as encodings of worlds of items, and what is kept in both; the archives of a wire schedule's
//! report are those of its takes.
#![tactic(auto)]

mod archived_takes;
mod cores;
mod device_logins;
mod encodings;
mod kept_worlds;
mod limits;
mod numbers;
mod wire_worlds;

pub use archived_takes::{archives_are_those_of_submissions, archives_are_those_of_the_takes};
pub use cores::{both_cores_keep_to_the_limits, each_world_is_one_of_items};
pub use device_logins::{
    devices_are_apart, devices_are_shown_from_the_start, devices_have_identities, logins_go_through,
};
pub use encodings::{
    a_move_is_moves_of_items, histories_are_those_of_items, no_bytes_are_no_items,
    pipes_of_bytes_carry_items, what_a_server_puts_is_in_order,
};
pub use kept_worlds::worlds_keep;
pub use limits::{worlds_fit, worlds_fit_here};
pub use numbers::{
    numbers_are_given_to_connections, numbers_are_within_connections, worlds_give_no_more_numbers,
};
pub use wire_worlds::{histories_are_moves, passes_are_up_and_down, runs_are_passes_of_each};
