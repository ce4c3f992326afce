//! The links of one device and its server: acknowledged delivery in both directions of a session, connections, pipes of words,
//! the handshake, cuts, resumptions early and late, counts and queues, with stanzas as values of any type (XEP-0198, sections
//! 4 and 5).
#![tactic(auto)]

mod delivery;
mod epoch_bounds;
mod links;

pub use delivery::{
    both_directions_are_reached, delivery_is_a_prefix, new_ends_begin, reached_grows,
    receivers_stay, senders_stay, stated_counts_ascend,
};
pub use epoch_bounds::epochs_are_within_numbers;
pub use links::{
    counts_are_at_most_the_puts, counts_are_too_high_only_after_a_newer_connection,
    counts_are_too_high_only_where_the_client_left, empty_pipes_leave_nothing_outstanding,
    moves_are_events_of_sessions, numbers_rise_with_epochs, runs_with_premises_are_runs,
    sessions_are_acknowledged_delivery, sessions_go_on, the_clients_queue_stays_short,
    what_is_under_way_is_in_the_pipes, words_come_where_they_are_expected, wrong_ends_are_refused,
};
