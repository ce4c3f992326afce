//! The keeper over a file.
//!
//! The keeper over a file is a crate of its own: all that stands on the trait is proved without SQLite's libraries.
//!
//! What `SqliteKeeper` refuses beyond what an answer may not be: an empty address, a type that is neither 0 nor 1, an
//! account's id of 2^31 and more, accounts without the row of the session number. No keeper writes these.
ghost use Rattle.std.specs.Prelude.{◌≡◌, ◌≤◌, None, IfOk};
ghost use Rattle.base_io.specs.Counts.{Rose};
ghost use Rattle.mam_keep.specs.Kept.{IsKeptRight};

use crate::database::Database;
use base_io::Text;
use mam_keep::{Change, KeepFault, Keeper, Kept, may_be_answered};

/// A keeper over a file that SQLite reads, opened or made by the first call. It doesn't say what it keeps, since no
/// contract can say what a file has. A commit is one transaction. A statement that is refused for another cause than
/// memory is a fault, and so are rows that can't be an answer. After an error the file is let go, and the next call
/// opens it anew.
#[derive(Drop)]
pub struct SqliteKeeper<'a> {
    rt: &'a HostRuntime,
    path: Text,
    open: Option<Database>,
    faults: u64,
}

impl<'a> SqliteKeeper<'a> {
    /// The keeper over the file at a path. Nothing is opened yet.
    pub fn new(rt: &'a HostRuntime, path: Text) -> SqliteKeeper<'a>
        ensures tables { ⟦<SqliteKeeper<'a> as Keeper>⟧.tables result ≡ None }
        ensures faults { ⟦<SqliteKeeper<'a> as Keeper>⟧.faults result ≡ 0 }
    {
        SqliteKeeper {
            rt,
            path,
            open: None,
            faults: 0,
        }
    }

    /// Closes the file. Without this call it stands in two files, FILE and FILE-wal, which belong together; after it in
    /// one. Where it fails they still are what was committed. No clause can say what it leaves.
    pub fn close(self) -> Result<(), KeepFault> {
        let SqliteKeeper {
            rt: _rt,
            path: _path,
            open,
            faults: _faults,
        } = self;
        match open {
            Some(database) => database.close(),
            None => Ok(()),
        }
    }

    /// Lets the file go, and counts a fault.
    fn count_fault(&mut self)
        ensures later { self.old.faults ≤ self.new.faults }
        ensures rose { Rose self.old.faults self.new.faults }
    {
        self.open = None;
        self.faults = self.faults.saturating_add(1);
    }

    /// Lets the file go.
    fn let_go(&mut self)
        ensures faults { self.new.faults ≡ self.old.faults }
    {
        self.open = None;
    }

    /// Opens the file where it isn't open.
    fn make_ready(&mut self) -> Result<(), KeepFault>
        ensures faults { self.new.faults ≡ self.old.faults }
    {
        if self.open.is_none() {
            self.open = Some(Database::open(self.rt, self.path.as_str())?);
        }
        Ok(())
    }

    fn read(&mut self) -> Result<Kept, KeepFault>
        ensures kept { IfOk result IsKeptRight }
        ensures faults { self.new.faults ≡ self.old.faults }
    {
        self.make_ready()?;
        let Some(database) = &mut self.open else {
            return Err(KeepFault::Failed);
        };
        let kept = database.load()?;
        if may_be_answered(&kept) {
            Ok(kept)
        } else {
            Err(KeepFault::Failed)
        }
    }

    fn write(&mut self, change: &Change) -> Result<(), KeepFault>
        ensures faults { self.new.faults ≡ self.old.faults }
    {
        self.make_ready()?;
        let Some(database) = &mut self.open else {
            return Err(KeepFault::Failed);
        };
        database.commit(change)
    }
}

impl Keeper for SqliteKeeper<'_> {
    ghost tables = { λ _. None };

    ghost faults = { λ k. k.faults };

    fn load(&mut self) -> Result<Kept, KeepFault> {
        match self.read() {
            Ok(kept) => Ok(kept),
            Err(KeepFault::NoMemory) => {
                self.let_go();
                Err(KeepFault::NoMemory)
            }
            Err(KeepFault::Failed) => {
                self.count_fault();
                Err(KeepFault::Failed)
            }
        }
    }

    fn commit(&mut self, change: &Change) -> Result<(), KeepFault> {
        match self.write(change) {
            Ok(()) => Ok(()),
            Err(KeepFault::NoMemory) => {
                self.let_go();
                Err(KeepFault::NoMemory)
            }
            Err(KeepFault::Failed) => {
                self.count_fault();
                Err(KeepFault::Failed)
            }
        }
    }
}
