//! An entry of an archive as a device knows it.
use base_io::{Copied, ListOf, NoMemory, Text};
use mam_archive::Entry;
use std::alloc::Global;

/// An entry as a device knows it: under the id that the server gave it.
#[derive(Drop)]
pub struct LogEntry {
    pub id: Text,
    pub entry: Entry,
}

impl Copied for LogEntry {
    fn copied(&self, alloc: Global) -> Result<LogEntry, NoMemory> {
        Ok(LogEntry {
            id: self.id.copied(alloc)?,
            entry: self.entry.copied(alloc)?,
        })
    }
}

/// Entries of a log, in order.
pub type LogEntries = ListOf<LogEntry>;
