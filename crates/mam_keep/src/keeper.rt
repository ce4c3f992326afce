//! Where a server keeps what survives it.
ghost use Rattle.std.specs.Prelude.{ℕ, Option, ◌⊎◌, IfOk, OnOk, OnErr};
ghost use Rattle.mam_keep.specs.Changes.{Makes, MayCommit};
ghost use Rattle.mam_keep.specs.Faults.{HasKeepCause};
ghost use Rattle.mam_keep.specs.Kept.{IsKeptRight, Stays, Tables, Tells};

use crate::change::Change;
use crate::fault::KeepFault;
use crate::kept::Kept;

/// Where archives and the number of the next session are kept. Contracts alone see two things of it: `tables`, what it
/// keeps, where it says that, and `faults`, how many of its calls failed, which stays at 2^64 - 1 once there.
pub trait Keeper {
    ghost tables: { Self → Option Tables };

    ghost faults: { Self → ℕ };

    /// What is kept. It changes nothing that is kept. Whether `tables` says what that is or not, the owners differ, and
    /// each archive is one that `Archive::restore` takes. `Failed` comes only where the count of faults rose.
    fn load(&mut self) -> Result<Kept, KeepFault>
        ensures kept { IfOk result IsKeptRight }
        ensures told { IfOk result (Tells (tables self.old)) }
        ensures same { Stays (tables self.old) (tables self.new) }
        ensures cause { HasKeepCause (faults self.old) (faults self.new) result };

    /// Makes a change. `Failed` comes only where the count of faults rose; where the answer isn't `Ok`, the change was
    /// made whole or not at all.
    fn commit(&mut self, change: &Change) -> Result<(), KeepFault>
        requires may { MayCommit change.now (tables self.old) }
        ensures made { OnOk result (Makes change.now (tables self.old) (tables self.new)) }
        ensures whole { OnErr result (Stays (tables self.old) (tables self.new) ⊎ Makes change.now (tables self.old) (tables self.new)) }
        ensures cause { HasKeepCause (faults self.old) (faults self.new) result };
}
