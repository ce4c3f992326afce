//! The journal of a server's events.
//!
//! The journal of several connections keeps events and not text, since clauses have to see them. A connection whose
//! number is above 2^63 - 1 has no place in it: `NoMemory`.
ghost use Rattle.std.specs.Prelude.{◌≡◌, ◌∷◌, ◌++◌, [], ◌<◌, ◌^◌, IfOk, OnOk, length};
ghost use Rattle.cmd_journal.specs.Journals.{event_view, events_text, journal_header};
ghost use Rattle.net_hub.specs.Records.{run_of_file, views_of};
ghost use Rattle.cmd_rerun.specs.Journaling.{journal_text};

use crate::ending::finish;
use base_io::{Bytes, NoMemory};
use cmd_journal::{AccountsFile, Event, append_event, append_journal_header};
use cmd_schedule::Version;
use srv_core::Server;
use std::alloc::Global;

// The first line of a journal.
fn begin(alloc: Global, version: Version) -> Result<Bytes, NoMemory>
    ensures { IfOk result (λ journal. journal.items ≡ journal_header version ++ 10 ∷ []) }
{
    let mut journal = Bytes::new(alloc);
    append_journal_header(&mut journal, version)?;
    Ok(journal)
}

// Adds the lines of events.
fn append_events(alloc: Global, out: &mut Bytes, events: &[Event]) -> Result<(), NoMemory>
    ensures { OnOk result (out.new.items ≡ out.old.items ++ events_text (views_of events.now)) }
{
    for event in events {
        append_event(alloc, out, event)?;
    }
    Ok(())
}

/// The journal of a server of an accounts file: a line for each event that it took, and its archives.
pub fn journal_of(
    alloc: Global,
    file: &AccountsFile,
    server: Server,
    events: &[Event],
) -> Result<Bytes, NoMemory>
    requires few { length file.now.accounts < 2 ^ 32 }
    requires server { server ≡ (run_of_file file.now (views_of events.now)).server }
    ensures { IfOk result (λ text. text.items ≡ journal_text file.now (views_of events.now)) }
{
    let mut journal = begin(alloc, file.version)?;
    append_events(alloc, &mut journal, events)?;
    finish(server, journal, file)
}
