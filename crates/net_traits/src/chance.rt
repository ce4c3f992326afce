//! Sources of random bytes.
ghost use Rattle.std.specs.Prelude.{List, ℕ, ◌≡◌, ◌++◌, OnErr, OnOk};
ghost use Rattle.base_io.specs.Counts.{HasCause};

use base_io::Failed;

/// A source of bytes that are drawn at random. Contracts alone see two things of it: `drawn`, the bytes that its calls gave so
/// far, in order, and `faults`, how many of its calls failed, which stays at 2^64 - 1 once there.
pub trait Entropy {
    ghost drawn: { Self → List ℕ };

    ghost faults: { Self → ℕ };

    /// Draws 24 bytes. `Failed` comes only where `faults` rose in this call, and then none were drawn.
    fn fill(&mut self, out: &mut [u8; 24]) -> Result<(), Failed>
        ensures drawn { OnOk result (drawn self.new ≡ drawn self.old ++ out.new) }
        ensures none { OnErr result (drawn self.new ≡ drawn self.old) }
        ensures cause { HasCause (faults self.old) (faults self.new) result };
}
