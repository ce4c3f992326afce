//! Where bytes come from.
ghost use Rattle.std.specs.Prelude.{Option, Some, List, ℕ};
ghost use Rattle.std.specs.Io.{ReadsAtMost};
ghost use Rattle.std.specs.Io.KnownBytes.{ReadConsumes, WriteAppends};
ghost use Rattle.base_io.specs.Counts.{HasCause};

use crate::fault::Failed;

/// Where bytes come from. Contracts alone see three things of it: `given`, the bytes that its calls gave so far; `left`,
/// those that it has still to give, where it tells them; and `faults`, how many of its calls failed, which stays at
/// 2^64 - 1 once there.
pub trait Source {
    ghost given: { Self → List ℕ };

    ghost left: { Self → Option (List ℕ) };

    ghost faults: { Self → ℕ };

    /// Puts the next bytes at the front of `buf`, and answers how many. 0 for a buffer with room is the end.
    /// `Failed` comes only where `faults` rose in this call, and then no byte was given; `Ok` leaves `faults`
    /// as it was.
    fn read(&mut self, buf: &mut [u8]) -> Result<usize, Failed>
        ensures bound { ReadsAtMost result buf.new }
        ensures given { WriteAppends (Some (given self.old)) (Some (given self.new)) result buf.new }
        ensures bytes { ReadConsumes (left self.old) (left self.new) result buf.new }
        ensures cause { HasCause (faults self.old) (faults self.new) result };
}
