//! What is read from the file, and written to it.
//!
//! The file is opened by the first call, and after any error let go and opened anew. A commit that failed half-way
//! then has one of the two states of the contract by the file's own recovery.
use crate::bodies::joined;
use crate::rows::{
    Connected, add_entries, close, id_of, integer, last_position_of, make_tables, number_at,
    opened, position_of, rows_of, run, text_at,
};
use crate::statements::{
    ACCOUNTS, ADD_ACCOUNT, ADD_ENTRY, BEGIN, COMMIT, ENTRIES, FIND_ACCOUNT, GIVEN, PURGE, ROLLBACK,
    ROWS_AT_ONCE, SET_GIVEN, SET_LAST,
};
use base_io::ListOf;
use mam_archive::{Entries, Entry};
use mam_keep::{Append, Change, KeepFault, Kept, KeptArchive, KeptList};
use sqlite::{Row, params};
use std::alloc::Global;

/// An open file.
#[derive(Drop)]
pub(crate) struct Database {
    alloc: Global,
    connected: Connected,
}

impl Database {
    /// Opens the file, or makes it.
    pub(crate) fn open(rt: &HostRuntime, path: &str) -> Result<Database, KeepFault> {
        let mut connected = opened(rt, path)?;
        make_tables(&mut connected)?;
        Ok(Database {
            alloc: rt.alloc(),
            connected,
        })
    }

    /// Closes the file; what stands in its log is copied into it.
    pub(crate) fn close(self) -> Result<(), KeepFault> {
        close(self.connected)
    }

    /// The rows of an account's next entries after a number.
    fn rows_after(&mut self, id: u64, number: u64) -> Result<Vec<Row>, KeepFault> {
        rows_of(
            &mut self.connected,
            ENTRIES,
            params![
                position_of(id, number),
                last_position_of(id),
                i64::from(ROWS_AT_ONCE)
            ],
        )
    }

    fn entries(&mut self, id: u64) -> Result<Entries, KeepFault> {
        let mut entries: Entries = ListOf::new(self.alloc);
        for _ in 0..u64::MAX {
            let after = match entries.as_slice().last() {
                Some(entry) => entry.number(),
                None => 0,
            };
            let rows = self.rows_after(id, after)?;
            add_entries(self.alloc, rows.as_slice(), &mut entries)?;
            if rows.len() < ROWS_AT_ONCE as usize {
                break;
            }
        }
        Ok(entries)
    }

    fn archive(&mut self, row: &Row) -> Result<KeptArchive, KeepFault> {
        let id = id_of(number_at(row, 0)?)?;
        Ok(KeptArchive {
            entries: self.entries(id)?,
            owner: text_at(row, 1)?,
            last: number_at(row, 2)?,
        })
    }

    /// The number of the next session, which is 1 where none was written. Then nothing was, and no account is there.
    fn session(&mut self, is_new: bool) -> Result<u64, KeepFault> {
        let rows = rows_of(&mut self.connected, GIVEN, &[])?;
        match rows.first() {
            Some(row) => Ok(number_at(row, 0)?.saturating_add(1)),
            None if is_new => Ok(1),
            None => Err(KeepFault::Failed),
        }
    }

    /// All that the file has. Whether that is an answer isn't looked at.
    pub(crate) fn load(&mut self) -> Result<Kept, KeepFault> {
        let accounts = rows_of(&mut self.connected, ACCOUNTS, &[])?;
        let session = self.session(accounts.is_empty())?;
        let mut archives: KeptList = ListOf::new(self.alloc);
        for row in accounts.as_slice() {
            archives.push(self.archive(row)?)?;
        }
        Ok(Kept { session, archives })
    }

    /// A new account's id.
    fn add_account(&mut self, owner: &str) -> Result<u64, KeepFault> {
        run(&mut self.connected, ADD_ACCOUNT, params![owner])?;
        match u64::try_from(self.connected.last_insert_rowid()) {
            Ok(id) => id_of(id),
            Err(_) => Err(KeepFault::Failed),
        }
    }

    /// The account's id and last number. The account is made where there is none.
    fn account(&mut self, owner: &str) -> Result<(u64, u64), KeepFault> {
        let rows = rows_of(&mut self.connected, FIND_ACCOUNT, params![owner])?;
        match rows.first() {
            Some(row) => Ok((id_of(number_at(row, 0)?)?, number_at(row, 1)?)),
            None => Ok((self.add_account(owner)?, 0)),
        }
    }

    /// Drops an account's entries up to a place.
    fn purge(&mut self, id: u64, last: i64) -> Result<(), KeepFault> {
        run(
            &mut self.connected,
            PURGE,
            params![position_of(id, 0), last],
        )
    }

    fn add_entry(&mut self, id: u64, entry: &Entry) -> Result<(), KeepFault> {
        let message = entry.message();
        let bodies = joined(self.alloc, message.bodies.as_slice())?;
        run(
            &mut self.connected,
            ADD_ENTRY,
            params![
                position_of(id, entry.number()),
                integer(message.stamp),
                message.from.as_str(),
                message.to.as_str(),
                message.normal,
                message.id.as_str(),
                message.origin.as_str(),
                &bodies
            ],
        )
    }

    /// Adds an entry, and drops those that aren't kept any more: all where its number isn't the next one, else the
    /// oldest.
    fn append(&mut self, append: &Append) -> Result<(), KeepFault> {
        let number = append.entry.number();
        let keep = u64::from(append.keep);
        let (id, last) = self.account(append.owner.as_str())?;
        if number.saturating_sub(1) != last {
            self.purge(id, last_position_of(id))?;
        } else if number > keep {
            self.purge(id, position_of(id, number - keep))?;
        }
        self.add_entry(id, &append.entry)?;
        run(
            &mut self.connected,
            SET_LAST,
            params![integer(id), integer(number)],
        )
    }

    fn write(&mut self, change: &Change) -> Result<(), KeepFault> {
        run(&mut self.connected, BEGIN, &[])?;
        run(
            &mut self.connected,
            SET_GIVEN,
            params![integer(change.session.saturating_sub(1))],
        )?;
        for append in change.appends.as_slice() {
            self.append(append)?;
        }
        run(&mut self.connected, COMMIT, &[])
    }

    /// Makes a change in one transaction. After an error the file is to be let go: what the next open finds in it is
    /// the whole change or nothing of it.
    pub(crate) fn commit(&mut self, change: &Change) -> Result<(), KeepFault> {
        match self.write(change) {
            Ok(()) => Ok(()),
            Err(fault) => {
                let _ = run(&mut self.connected, ROLLBACK, &[]);
                Err(fault)
            }
        }
    }
}
