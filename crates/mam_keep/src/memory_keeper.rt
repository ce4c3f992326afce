//! A keeper in memory whose calls can fail.
//!
//! A keeper in memory keeps every append ever committed, and computes the archives at a load. So a commit takes all
//! its memory first, and then changes what is kept whole.
ghost use Rattle.std.specs.Prelude.{◌≡◌, ◌↔◌, ◌⊎◌, IfOk, IsErrOf, OnOk, OnErr, Contains, Some};
ghost use Rattle.base_io.specs.Counts.{counted};
ghost use Rattle.base_io.specs.InMemory.{not_called};
ghost use Rattle.mam_keep.specs.Changes.{Makes, MayCommit};
ghost use Rattle.mam_keep.specs.Faults.{HasKeepCause};
ghost use Rattle.mam_keep.specs.InMemory.{nothing_committed, tables_after};
ghost use Rattle.mam_keep.specs.Kept.{IsKeptRight, Stays, Tells};

use crate::change::Change;
use crate::committed::Committed;
use crate::failing_calls::FailingCalls;
use crate::fault::KeepFault;
use crate::keeper::Keeper;
use crate::kept::Kept;
use base_io::Numbers;
use std::alloc::Global;
use std::marker::Model;

/// A keeper in memory, which says what it keeps. Chosen calls fail, and leave what it keeps as it was: what a server
/// does with a keeper that fails can be tried on it. It keeps every entry ever committed, and answers the newest.
#[derive(Drop)]
pub struct MemoryKeeper {
    alloc: Global,
    committed: Committed,
    failing: FailingCalls,
}

impl Model for MemoryKeeper {
    ghost use Rattle.mam_keep.specs.InMemory.{MemoryKeeperView};

    ghost Value = { MemoryKeeperView };

    ghost view = { λ k. record { committed = k.committed; failing = k.failing } };
}

impl MemoryKeeper {
    /// A keeper that keeps no entry, and the session number 1. Loads and commits are numbered together, from 1; those
    /// whose numbers are in `fails` answer `Failed`.
    pub fn new(alloc: Global, fails: Numbers) -> MemoryKeeper
        ensures { result ≡ record { committed = nothing_committed; failing = not_called fails.items } }
    {
        MemoryKeeper {
            alloc,
            committed: Committed::new(alloc),
            failing: FailingCalls::new(fails),
        }
    }
}

impl Keeper for MemoryKeeper {
    ghost tables = { λ k. Some (tables_after k.committed) };

    ghost faults = { λ k. k.failing.faults };

    fn load(&mut self) -> Result<Kept, KeepFault>
        ensures kept { IfOk result IsKeptRight }
        ensures told { IfOk result (Tells (Some (tables_after self.old.committed))) }
        ensures same { Stays (Some (tables_after self.old.committed)) (Some (tables_after self.new.committed)) }
        ensures cause { HasKeepCause self.old.failing.faults self.new.failing.faults result }
        ensures left { self.new.committed ≡ self.old.committed }
        ensures chosen { IsErrOf result KeepFault.Failed ↔ Contains self.old.failing.fails self.new.failing.calls }
        ensures calls { self.new.failing.calls ≡ counted self.old.failing.calls }
        ensures fails { self.new.failing.fails ≡ self.old.failing.fails }
    {
        if self.failing.next_fails() {
            return Err(KeepFault::Failed);
        }
        Ok(self.committed.load(self.alloc)?)
    }

    fn commit(&mut self, change: &Change) -> Result<(), KeepFault>
        requires may { MayCommit change.now (Some (tables_after self.old.committed)) }
        ensures made { OnOk result (Makes change.now (Some (tables_after self.old.committed)) (Some (tables_after self.new.committed))) }
        ensures whole { OnErr result (Stays (Some (tables_after self.old.committed)) (Some (tables_after self.new.committed)) ⊎ Makes change.now (Some (tables_after self.old.committed)) (Some (tables_after self.new.committed))) }
        ensures cause { HasKeepCause self.old.failing.faults self.new.failing.faults result }
        ensures left { OnErr result (self.new.committed ≡ self.old.committed) }
        ensures chosen { IsErrOf result KeepFault.Failed ↔ Contains self.old.failing.fails self.new.failing.calls }
        ensures calls { self.new.failing.calls ≡ counted self.old.failing.calls }
        ensures fails { self.new.failing.fails ≡ self.old.failing.fails }
    {
        if self.failing.next_fails() {
            return Err(KeepFault::Failed);
        }
        self.committed.commit(self.alloc, change)?;
        Ok(())
    }
}
