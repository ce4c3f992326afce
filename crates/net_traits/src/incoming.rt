//! Where the bytes of a link come from.
ghost use Rattle.std.specs.Prelude.{◌≡◌, None};
ghost use Rattle.std.specs.Io.{ReadsAtMost};
ghost use Rattle.std.specs.Io.KnownBytes.{ReadConsumes, WriteAppends};
ghost use Rattle.base_io.specs.Counts.{HasCause};
ghost use Rattle.net_traits.specs.Links.{counted_if, is_end};
ghost use Rattle.net_traits.specs.Halves.{IncomingView};

use base_io::Failed;

/// The half of a link from which bytes are read. Contracts alone see `told`: the number of the link, the bytes that were read
/// and those that are left, where it tells them, and two counts, of reads that failed and of reads that found the end; each
/// stays at 2^64 - 1 once there. A half that doesn't tell its bytes never tells any.
pub trait Incoming {
    ghost told: { Self → IncomingView };

    /// Puts the next bytes at the start of `buf`, and answers how many. 0 for a buffer with room is the end, and is counted.
    /// `Failed` comes only where the count of failed reads rose in this call, and then no byte was given; `Ok` leaves that
    /// count as it was.
    fn read(&mut self, buf: &mut [u8]) -> Result<usize, Failed>
        ensures bound { ReadsAtMost result buf.new }
        ensures left { ReadConsumes (told self.old).left (told self.new).left result buf.new }
        ensures read { WriteAppends (told self.old).read (told self.new).read result buf.new }
        ensures silent { (told self.old).read ≡ None → (told self.new).read ≡ None }
        ensures cause { HasCause (told self.old).faults (told self.new).faults result }
        ensures ends { (told self.new).ends ≡ counted_if (is_end result buf.new) (told self.old).ends }
        ensures number { (told self.new).number ≡ (told self.old).number };
}
