//! One piece over a link: it is read and handed on, and what is put over it goes out.
ghost use Rattle.std.specs.Prelude.{◌≡◌, ◌≤◌, true, ◌<◌, IfErr, IfOk, OnOk, length};
ghost use Rattle.cmd_sync.specs.Courses.{is_awaiting};
ghost use Rattle.cmd_sync.specs.SyncReading.{IsPiece};
ghost use Rattle.cmd_sync.specs.Talks.{IsDry, IsRound, RoundStops};
ghost use Rattle.cmd_sync.specs.Views.{course_of};

use crate::failure::LinkFailure;
use crate::progress::Course;
use crate::running::MOST_RECEIVED;
use crate::sync_fault::Stop;
use base_io::WriteFault;
use net_traits::{Link, send_whole};
use std::alloc::Global;

/// Reads a piece into the front of `buf`, and answers how long it is: `Read` where the read failed, `End` where it found the
/// end.
fn receive<L: Link>(link: &mut L, buf: &mut [u8]) -> Result<usize, LinkFailure>
    requires { 0 < length buf.old }
    ensures some { IfOk result (λ n. IsPiece (L.told link.old) (L.told link.new) n buf.new) }
    ensures none { IfErr result (λ failure. IsDry failure (L.told link.old) (L.told link.new)) }
{
    match link.read(buf) {
        Ok(0) => Err(LinkFailure::End),
        Ok(n) => Ok(n),
        Err(_) => Err(LinkFailure::Read),
    }
}

/// Reads a piece, hands it on, and writes what is put over it.
#[tactic(auto, using(crate::proofs::Spoken::dry_stops))]
pub fn exchange<L: Link>(alloc: Global, link: &mut L, course: &mut Course) -> Result<(), Stop>
    requires awaited { is_awaiting course.old.stage ≡ true }
    requires few { course.old.total ≤ MOST_RECEIVED }
    ensures ok { OnOk result (IsRound (L.told link.old) (L.told link.new) (course_of course.old) (course_of course.new)) }
    ensures err { IfErr result (λ stop. RoundStops stop (L.told link.old) (L.told link.new) (course_of course.old)) }
{
    let mut buf = [0u8; 4096];
    let n = match receive(link, &mut buf) {
        Ok(n) => n,
        Err(failure) => return Err(Stop::Link(failure)),
    };
    let put = course.take(alloc, &buf[..n])?;
    match send_whole(link, put.as_slice()) {
        Ok(()) => Ok(()),
        Err(WriteFault) => Err(Stop::Link(LinkFailure::Write)),
    }
}
