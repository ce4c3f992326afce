//! A talk over a link, from its first bytes to its closing.
ghost use Rattle.std.specs.Prelude.{◌≡◌, true, false, IfErr, OnOk};
ghost use Rattle.cmd_sync.specs.Courses.{is_awaiting};
ghost use Rattle.cmd_sync.specs.Talks.{CallStops, DialerView, IsHeld, IsSpoken, TalkStops};
ghost use Rattle.cmd_sync.specs.Views.{course_of, course_step_of};

use crate::failure::LinkFailure;
use crate::progress::Course;
use crate::rounds::exchange;
use crate::sync_fault::Stop;
use base_io::{Bytes, WriteFault};
use net_traits::{Dialer, Link, OpenFault, send_whole};
use std::alloc::Global;

/// Writes the first bytes, and then takes piece by piece, as long as something is awaited.
fn converse<L: Link>(
    alloc: Global,
    link: &mut L,
    course: &mut Course,
    first: &[u8],
) -> Result<(), Stop>
    requires { course.old.total ≡ 0 }
    ensures ok { OnOk result (IsSpoken (course_step_of course.old first.now) (L.told link.old) (L.told link.new) (course_of course.new)) }
    ensures over { OnOk result (is_awaiting course.new.stage ≡ false) }
    ensures err { IfErr result (λ stop. TalkStops stop (course_step_of course.old first.now) (L.told link.old) (L.told link.new)) }
{
    if let Err(WriteFault) = send_whole(link, first) {
        return Err(Stop::Link(LinkFailure::Write));
    }
    while course.stage.is_awaiting() {
        match exchange(alloc, link, course) {
            Ok(()) => {}
            Err(stop) => return Err(stop),
        }
    }
    Ok(())
}

/// Dials, talks over the link, and gives it back.
#[tactic(auto, using(crate::proofs::Spoken::call_stops, crate::proofs::Spoken::same_dialer))]
pub fn call<D: Dialer>(
    alloc: Global,
    dialer: &mut D,
    port: u16,
    course: &mut Course,
    first: &[u8],
) -> Result<(), Stop>
    requires { course.old.total ≡ 0 }
    ensures ok { let before : DialerView = record { faults = D.faults dialer.old; ends = D.ends dialer.old; handed = D.handed dialer.old; given = D.given dialer.old } in
        let after : DialerView = record { faults = D.faults dialer.new; ends = D.ends dialer.new; handed = D.handed dialer.new; given = D.given dialer.new } in
        OnOk result (IsHeld (course_step_of course.old first.now) before after (course_of course.new)) }
    ensures over { OnOk result (is_awaiting course.new.stage ≡ false) }
    ensures err { let before : DialerView = record { faults = D.faults dialer.old; ends = D.ends dialer.old; handed = D.handed dialer.old; given = D.given dialer.old } in
        let after : DialerView = record { faults = D.faults dialer.new; ends = D.ends dialer.new; handed = D.handed dialer.new; given = D.given dialer.new } in
        IfErr result (λ stop. CallStops stop (course_step_of course.old first.now) before after) }
{
    let mut link = match dialer.dial(port) {
        Ok(link) => link,
        Err(OpenFault::Failed) => return Err(Stop::Link(LinkFailure::Dial)),
        Err(OpenFault::NoMemory) => return Err(Stop::NoMemory),
    };
    let talked = converse(alloc, &mut link, course, first);
    link.close();
    dialer.give_back(link);
    talked
}
