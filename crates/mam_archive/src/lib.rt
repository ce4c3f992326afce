//! An account's archive: its newest entries, numbered from 1, each linked with the next and the previous one of the same
//! peer, and the ids under which they are asked for (XEP-0313).
#![tactic(auto)]

mod archive;
mod chains;
mod entry;
mod ids;
mod kept;
mod laws;
mod peers;

pub use archive::{Archive, ArchiveFault, GREATEST_NUMBER};
pub use chains::Chain;
pub use entry::{ArchivedMessage, Bodies, Body, Entries, Entry};
pub use ids::{id_of_number, id_text, number_of};
pub use laws::{chain_is_walked, entries_are_kept, id_is_text, ids_differ};
pub use peers::bare_form;
