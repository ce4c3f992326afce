//! Where the bytes of a link go.
ghost use Rattle.std.specs.Prelude.{◌≡◌, ◌<◌, Bool, true, length, None, IfOk, OnOk};
ghost use Rattle.std.specs.Io.{WritesAtMost};
ghost use Rattle.std.specs.Io.KnownBytes.{Appends, WriteAppends};
ghost use Rattle.base_io.specs.Counts.{HasCause};
ghost use Rattle.base_io.specs.Prefixes.{AppendsPrefix};
ghost use Rattle.net_traits.specs.Halves.{OutgoingView};

use base_io::{Failed, WriteFault};

/// The half of a link to which bytes are written. Contracts alone see `told`: the number of the link, the bytes that were
/// written, where it tells them, and the count of writes that failed, which stays at 2^64 - 1 once there. A half that doesn't
/// tell its bytes never tells any. They also see `closed`, whether the half was closed.
pub trait Outgoing {
    ghost told: { Self → OutgoingView };

    ghost closed: { Self → Bool };

    /// Takes bytes from the start of `bytes`, and answers how many: at least 1, if there are any. `Failed` comes only where
    /// the count of failed writes rose in this call, and then no byte was taken; `Ok` leaves that count as it was.
    fn write(&mut self, bytes: &[u8]) -> Result<usize, Failed>
        ensures bound { WritesAtMost result bytes.now }
        ensures written { WriteAppends (told self.old).written (told self.new).written result bytes.now }
        ensures silent { (told self.old).written ≡ None → (told self.new).written ≡ None }
        ensures some { IfOk result (λ n. 0 < length bytes.now → 0 < n) }
        ensures cause { HasCause (told self.old).faults (told self.new).faults result }
        ensures number { (told self.new).number ≡ (told self.old).number }
        ensures closed { closed self.new ≡ closed self.old };

    /// Ends the link in both directions: what reads from its other half finds the end. No count rises.
    fn close(&mut self)
        ensures told { told self.new ≡ told self.old }
        ensures closed { closed self.new ≡ true };
}

/// Writes all of `bytes` to a half. It takes no memory.
///
/// `WriteFault` comes exactly where a write failed, and then a prefix of `bytes` went out, and no other byte.
pub fn write_whole<O: Outgoing>(half: &mut O, bytes: &[u8]) -> Result<(), WriteFault>
    ensures all { OnOk result (Appends (O.told half.old).written (O.told half.new).written bytes.now) }
    ensures prefix { AppendsPrefix (O.told half.old).written (O.told half.new).written bytes.now }
    ensures silent { (O.told half.old).written ≡ None → (O.told half.new).written ≡ None }
    ensures cause { HasCause (O.told half.old).faults (O.told half.new).faults result }
    ensures number { (O.told half.new).number ≡ (O.told half.old).number }
    ensures closed { O.closed half.new ≡ O.closed half.old }
{
    let mut rest = bytes;
    while !rest.is_empty() {
        match half.write(rest) {
            Ok(n) => rest = &rest[n..],
            Err(_) => return Err(WriteFault),
        }
    }
    Ok(())
}
