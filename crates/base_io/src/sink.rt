//! Where bytes go.
ghost use Rattle.std.specs.Prelude.{Option, List, ℕ, ◌<◌, length, IfOk};
ghost use Rattle.std.specs.Io.{WritesAtMost};
ghost use Rattle.std.specs.Io.KnownBytes.{WriteAppends};
ghost use Rattle.base_io.specs.Counts.{HasCause};

use crate::fault::Failed;

/// Where bytes go. Contracts alone see two things of it: `written`, the bytes that it took so far, where
/// it tells them, and `faults`, how many of its calls failed, which stays at 2^64 - 1 once there.
pub trait Sink {
    ghost written: { Self → Option (List ℕ) };

    ghost faults: { Self → ℕ };

    /// Takes bytes from the front of `bytes`, and answers how many: at least 1, if there are any. `Failed`
    /// comes only where `faults` rose in this call, and then no byte was taken; `Ok` leaves `faults` as it
    /// was.
    fn write(&mut self, bytes: &[u8]) -> Result<usize, Failed>
        ensures bound { WritesAtMost result bytes.now }
        ensures bytes { WriteAppends (written self.old) (written self.new) result bytes.now }
        ensures some { IfOk result (λ n. 0 < length bytes.now → 0 < n) }
        ensures cause { HasCause (faults self.old) (faults self.new) result };
}
