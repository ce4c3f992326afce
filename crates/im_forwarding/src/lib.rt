//! What a server passes on, each as the bytes that are sent: messages, with the ids that archives give them (XEP-0359),
//! copies of them for an account's other sessions (XEP-0280), and what an archive answers to a query (XEP-0313).
#![tactic(auto)]

mod copies;
mod laws;
mod passing;
mod queries;
mod query_fault;
mod results;
mod writing;

pub use copies::CarbonCopy;
pub use laws::{
    only_the_archive_gives_ids, results_are_their_entries, what_is_passed_on_is_a_tree,
};
pub use passing::{Addressed, Filed, passed};
pub use queries::{no_such_place, query_asked};
pub use query_fault::QueryFault;
pub use results::{Asker, archived, page_end};
