//! The payloads of an archive as values (XEP-0313): what it is asked for, a message that it has, and the end of a page.
#![tactic(auto)]

mod archive_answers;
mod archive_query;
mod data_forms;
mod laws;
mod result_sets;

pub use archive_answers::{
    MamResult, fin_tree, fin_tree_without_index, read_fin, read_fin_element,
};
pub use archive_query::MamQuery;
pub use laws::{
    archived_messages_are_exact, ends_of_pages_are_exact, no_index_is_told_where_it_is_left_out,
    queries_are_exact,
};
