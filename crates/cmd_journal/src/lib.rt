//! Journals: what a server's run is done again from, an accounts file and a journal, their grammar and the reading of their
//! text; and the text of what a server did.
#![tactic(auto)]

mod accounts_file;
mod accounts_reading;
mod archive_texts;
mod event;
mod event_reading;
mod event_texts;
mod fault;
mod fields;
mod laws;
mod lines;
mod names;
mod output;
mod output_texts;
mod pieces;
mod reading;
mod run_texts;

pub use accounts_file::{AccountsFile, Registration, Registrations};
pub use archive_texts::{NamedArchive, append_archive};
pub use event::{Event, Events, LAST_CONNECTION, RerunInput};
pub use event_texts::{append_event, append_journal_header};
pub use fault::InputFault;
pub use laws::{
    accounts_reading_is_the_grammar, events_are_read_back, rerun_reading_is_the_grammar,
};
pub use output::{Output, Outputs};
pub use output_texts::append_output;
pub use reading::{read_accounts, read_rerun};
pub use run_texts::rerun_text;
