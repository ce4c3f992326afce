//! A keeper in memory whose calls don't fail.
ghost use Rattle.std.specs.Prelude.{◌≡◌, Some};
ghost use Rattle.mam_keep.specs.InMemory.{nothing_committed, tables_after};

use crate::change::Change;
use crate::committed::Committed;
use crate::fault::KeepFault;
use crate::keeper::Keeper;
use crate::kept::Kept;
use std::alloc::Global;
use std::marker::Model;

/// A keeper in memory, which says what it keeps. No call fails but for want of memory.
#[derive(Drop)]
pub struct SureKeeper {
    alloc: Global,
    committed: Committed,
}

impl Model for SureKeeper {
    ghost use Rattle.mam_keep.specs.Changes.{ChangeView};

    ghost Value = { ChangeView };

    ghost view = { λ k. k.committed };
}

impl SureKeeper {
    /// A keeper that keeps no entry, and the session number 1.
    pub fn new(alloc: Global) -> SureKeeper
        ensures { result ≡ nothing_committed }
    {
        SureKeeper {
            alloc,
            committed: Committed::new(alloc),
        }
    }
}

impl Keeper for SureKeeper {
    ghost tables = { λ k. Some (tables_after k) };

    ghost faults = { λ _. 0 };

    fn load(&mut self) -> Result<Kept, KeepFault> {
        Ok(self.committed.load(self.alloc)?)
    }

    fn commit(&mut self, change: &Change) -> Result<(), KeepFault> {
        self.committed.commit(self.alloc, change)?;
        Ok(())
    }
}
