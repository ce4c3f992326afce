//! Laws of a client's table, beside the contracts of `cl_core`. Each call is the same however what it puts is written; and what
//! a client puts it puts in order, a header first, and nothing behind a footer.
#![tactic(auto)]

mod client_maps;
mod client_order;
mod client_tables;

pub use client_maps::{each_call_in_bytes_is_that_of_items, each_call_is_the_same_however_written};
pub use client_order::a_client_puts_in_order;
pub use client_tables::{
    a_session_stands_online, bytes_are_those_of_items, calls_are_those_of_the_client,
    logs_are_tiled, logs_grow_by_pages, pages_advance, queues_are_directions,
    session_rows_are_moves, submissions_wait_in_the_session, table_is_the_same_however_written,
};
