//! Links: bytes that go both ways.
ghost use Rattle.std.specs.Prelude.{Option, List, ℕ, ◌≡◌, ◌<◌, length, None, IfOk, OnOk};
ghost use Rattle.std.specs.Io.{ReadsAtMost, WritesAtMost};
ghost use Rattle.std.specs.Io.KnownBytes.{Appends, ReadConsumes, WriteAppends};
ghost use Rattle.base_io.specs.Counts.{HasCause};
ghost use Rattle.base_io.specs.Prefixes.{AppendsPrefix};
ghost use Rattle.net_traits.specs.Links.{LinkView, ReadsStay, WritesStay, counted_if, is_end};

use base_io::{Failed, WriteFault};

/// A connection: bytes come from the other end and go to it. Contracts alone see two things of it. `told` has the bytes
/// that were read from it and written to it so far, where it tells them, and three counts, of reads that failed, of writes
/// that failed and of reads that found the end; each stays at 2^64 - 1 once there. A
/// link that doesn't tell its bytes never tells any. `left` has the bytes that are still to
/// be read, where it tells them.
pub trait Link {
    ghost told: { Self → LinkView };

    ghost left: { Self → Option (List ℕ) };

    /// Puts the next bytes at the front of `buf`, and answers how many. 0 for a buffer with room is the end, and is counted.
    /// `Failed` comes only where the count of failed reads rose in this call, and then no byte was given; `Ok` leaves that
    /// count as it was.
    fn read(&mut self, buf: &mut [u8]) -> Result<usize, Failed>
        ensures bound { ReadsAtMost result buf.new }
        ensures left { ReadConsumes (left self.old) (left self.new) result buf.new }
        ensures read { WriteAppends (told self.old).read (told self.new).read result buf.new }
        ensures silent { (told self.old).read ≡ None → (told self.new).read ≡ None }
        ensures cause { HasCause (told self.old).read_faults (told self.new).read_faults result }
        ensures ends { (told self.new).ends ≡ counted_if (is_end result buf.new) (told self.old).ends }
        ensures writes { WritesStay (told self.old) (told self.new) };

    /// Takes bytes from the front of `bytes`, and answers how many: at least 1, if there are any. `Failed` comes only where
    /// the count of failed writes rose in this call, and then no byte was taken; `Ok` leaves that count as it was.
    fn write(&mut self, bytes: &[u8]) -> Result<usize, Failed>
        ensures bound { WritesAtMost result bytes.now }
        ensures written { WriteAppends (told self.old).written (told self.new).written result bytes.now }
        ensures silent { (told self.old).written ≡ None → (told self.new).written ≡ None }
        ensures some { IfOk result (λ n. 0 < length bytes.now → 0 < n) }
        ensures cause { HasCause (told self.old).write_faults (told self.new).write_faults result }
        ensures reads { ReadsStay (told self.old) (told self.new) };

    /// Tells the other end that nothing more is read or written. No count rises.
    fn close(&mut self)
        ensures { told self.new ≡ told self.old };
}

/// Writes all of `bytes` to a link. It takes no memory.
///
/// `WriteFault` comes exactly where a write failed, and then a prefix of `bytes` went out, and no other byte.
pub fn send_whole<L: Link>(link: &mut L, bytes: &[u8]) -> Result<(), WriteFault>
    ensures all { OnOk result (Appends (L.told link.old).written (L.told link.new).written bytes.now) }
    ensures prefix { AppendsPrefix (L.told link.old).written (L.told link.new).written bytes.now }
    ensures silent { (L.told link.old).written ≡ None → (L.told link.new).written ≡ None }
    ensures cause { HasCause (L.told link.old).write_faults (L.told link.new).write_faults result }
    ensures reads { ReadsStay (L.told link.old) (L.told link.new) }
{
    let mut rest = bytes;
    while !rest.is_empty() {
        match link.write(rest) {
            Ok(n) => rest = &rest[n..],
            Err(_) => return Err(WriteFault),
        }
    }
    Ok(())
}
