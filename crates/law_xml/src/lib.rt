//! The laws of the stream parser and of the writer, which are about definitions: the grammar of streams in the words of
//! XML (RFC 6120, section 4; XML 1.0; Namespaces in XML 1.0), what a framer reads of it, which byte decides which fault,
//! and what is written. Then from bytes to items: what the bytes of a pipe stand for at the framer that reads them, and how
//! what an end puts enters the pipe as those items.
#![tactic(auto)]

pub mod byte_rows;
mod carried;
pub mod faults;
pub mod grammar;
pub mod offsets;
pub mod prefixes;
mod put_items;
pub mod reading;
pub mod round_trips;
pub mod rows;
pub mod writing;
mod written;

pub use carried::{
    a_cut_keeps_first_items, an_emptied_pipe_carries_nothing, an_ended_pipe_carries_the_same,
    an_item_may_have_a_declaration, first_bytes_give_first_items, whole_items_enter,
};
pub use put_items::what_may_be_put_enters;
pub use written::{what_an_end_puts_enters, what_is_read_enters};
