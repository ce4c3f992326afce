//! One call of the connection each, and what is read of a row. The clauses of `sqlite` are so large that a function
//! with several of its calls takes many minutes to prove; after these helpers nothing is left of them.
//!
//! The file has the greatest session number given, since 2^63 is no integer of it. An entry's key is the account's id
//! times 2^32 and its number: purging is one range, and an archive is one range in order.
use crate::bodies::parted;
use crate::statements::TABLES;
use base_io::Text;
use mam_archive::{ArchivedMessage, Bodies, Entries, Entry};
use mam_keep::KeepFault;
use sqlite::types::ValueRef;
use sqlite::{Connection, Error, ErrorCode, File, FileStore, Row};
use std::alloc::Global;

pub(crate) type Connected = Connection<FileStore<File>>;

/// So many numbers an account has: a place is the account's id times this, and a number.
const NUMBERS: u64 = 4_294_967_296;

/// The greatest id of an account whose places are integers of the file.
const GREATEST_ID: u64 = 2_147_483_647;

/// Why the file did not serve.
fn fault_of(error: Error) -> KeepFault {
    match error {
        Error::SqliteFailure(ErrorCode::OutOfMemory) => KeepFault::NoMemory,
        _ => KeepFault::Failed,
    }
}

/// Opens the file, or makes it.
pub(crate) fn opened(rt: &HostRuntime, path: &str) -> Result<Connected, KeepFault> {
    match Connection::open(rt, path) {
        Ok(connected) => Ok(connected),
        Err(error) => Err(fault_of(error)),
    }
}

/// Makes the tables that aren't there.
pub(crate) fn make_tables(connected: &mut Connected) -> Result<(), KeepFault> {
    match connected.execute_batch(TABLES) {
        Ok(()) => Ok(()),
        Err(error) => Err(fault_of(error)),
    }
}

/// Closes the file.
pub(crate) fn close(connected: Connected) -> Result<(), KeepFault> {
    match connected.close() {
        Ok(()) => Ok(()),
        Err(error) => Err(fault_of(error)),
    }
}

/// Runs a statement that answers no rows.
pub(crate) fn run(
    connected: &mut Connected,
    text: &str,
    values: &[ValueRef<'_>],
) -> Result<(), KeepFault> {
    match connected.execute(text, values) {
        Ok(_) => Ok(()),
        Err(error) => Err(fault_of(error)),
    }
}

/// The rows that a statement answers.
pub(crate) fn rows_of(
    connected: &mut Connected,
    text: &str,
    values: &[ValueRef<'_>],
) -> Result<Vec<Row>, KeepFault> {
    match connected.query_all(text, values) {
        Ok(rows) => Ok(rows),
        Err(error) => Err(fault_of(error)),
    }
}

/// A text of a row.
pub(crate) fn text_at(row: &Row, at: usize) -> Result<Text, KeepFault> {
    match row.get::<String>(at) {
        Ok(text) => Ok(Text::from(text)),
        Err(error) => Err(fault_of(error)),
    }
}

/// A number of a row.
pub(crate) fn number_at(row: &Row, at: usize) -> Result<u64, KeepFault> {
    match row.get::<u64>(at) {
        Ok(number) => Ok(number),
        Err(error) => Err(fault_of(error)),
    }
}

/// An account's id, refused where its places are no integers of the file.
pub(crate) fn id_of(id: u64) -> Result<u64, KeepFault> {
    if id <= GREATEST_ID {
        Ok(id)
    } else {
        Err(KeepFault::Failed)
    }
}

/// A number as an integer of the file. No number that is written is above the greatest of them.
pub(crate) fn integer(number: u64) -> i64 {
    match i64::try_from(number) {
        Ok(number) => number,
        Err(_) => i64::MAX,
    }
}

/// Where an account's entry with a number stands.
pub(crate) fn position_of(id: u64, number: u64) -> i64 {
    integer(id.saturating_mul(NUMBERS).saturating_add(number))
}

/// Where the last entry that an account can have stands.
pub(crate) fn last_position_of(id: u64) -> i64 {
    position_of(id, NUMBERS - 1)
}

fn is_normal_at(row: &Row, at: usize) -> Result<bool, KeepFault> {
    match number_at(row, at)? {
        0 => Ok(false),
        1 => Ok(true),
        _ => Err(KeepFault::Failed),
    }
}

fn bodies_at(alloc: Global, row: &Row, at: usize) -> Result<Bodies, KeepFault> {
    let text = text_at(row, at)?;
    match parted(alloc, text.as_str())? {
        Some(bodies) => Ok(bodies),
        None => Err(KeepFault::Failed),
    }
}

fn message_of(alloc: Global, row: &Row) -> Result<ArchivedMessage, KeepFault> {
    Ok(ArchivedMessage {
        stamp: number_at(row, 1)?,
        from: text_at(row, 2)?,
        to: text_at(row, 3)?,
        normal: is_normal_at(row, 4)?,
        id: text_at(row, 5)?,
        origin: text_at(row, 6)?,
        bodies: bodies_at(alloc, row, 7)?,
    })
}

/// The entry of a row.
fn entry_of(alloc: Global, row: &Row) -> Result<Entry, KeepFault> {
    let number = number_at(row, 0)? % NUMBERS;
    let message = message_of(alloc, row)?;
    Ok(Entry::new(alloc, number, message)?)
}

/// Adds the entries of rows.
pub(crate) fn add_entries(
    alloc: Global,
    rows: &[Row],
    entries: &mut Entries,
) -> Result<(), KeepFault> {
    for row in rows {
        entries.push(entry_of(alloc, row)?)?;
    }
    Ok(())
}
