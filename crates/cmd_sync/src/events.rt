//! What an event says of a script.
ghost use Rattle.std.specs.Prelude.{◌≡◌};
ghost use Rattle.cmd_sync.specs.Failures.{failure_of, page_failure, peer_failure};
ghost use Rattle.cmd_sync.specs.Courses.{does, is_acked, is_acknowledged, is_bound, is_caught_up, is_last_acknowledged};

use crate::conditions::SentCondition;
use crate::failure::PeerFailure;
use crate::script::Step;
use crate::stage::Stage;
use cl_core::{CatchUpFault, Event, PeerFault};
use mam_log::PageOutcome;
use sm_outbox::{Said, SaidState};

fn peer_failure(fault: &PeerFault) -> PeerFailure
    ensures { result ≡ peer_failure fault.now }
{
    match fault {
        PeerFault::Framing(_) => PeerFailure::Framing,
        PeerFault::Stream(condition) => {
            PeerFailure::Stream(SentCondition::named(condition.as_str()))
        }
        PeerFault::Sasl(condition) => PeerFailure::Sasl(SentCondition::named(condition.as_str())),
        PeerFault::BadVerifier => PeerFailure::BadVerifier,
        PeerFault::Scram => PeerFailure::Scram,
        PeerFault::NoFeature => PeerFailure::NoFeature,
        PeerFault::Unexpected => PeerFailure::Unexpected,
        PeerFault::TooHigh(_) => PeerFailure::TooHigh,
        PeerFault::Unacknowledged => PeerFailure::Unacknowledged,
        PeerFault::Closed => PeerFailure::Closed,
    }
}

fn page_failure(fault: &CatchUpFault) -> PeerFailure
    ensures { result ≡ page_failure fault.now }
{
    match fault {
        CatchUpFault::Refused(condition) => {
            PeerFailure::Refused(SentCondition::named(condition.name()))
        }
        CatchUpFault::Overrun => PeerFailure::Overrun,
        CatchUpFault::Mismatch { .. } => PeerFailure::Mismatch,
        CatchUpFault::Repeats(_) => PeerFailure::Repeats,
        CatchUpFault::NoAdvance => PeerFailure::NoAdvance,
    }
}

/// The failure that an event tells, where it tells one.
pub fn failure_of(event: &Event) -> Option<PeerFailure>
    ensures { result ≡ failure_of event.now }
{
    match event {
        Event::Ended(fault) => Some(peer_failure(fault)),
        Event::CatchUpRefused(fault) => Some(page_failure(fault)),
        _ => None,
    }
}

fn is_bound(event: &Event) -> bool
    ensures { result ≡ is_bound event.now }
{
    match event {
        Event::Bound { .. } => true,
        _ => false,
    }
}

fn is_acked(event: &Event) -> bool
    ensures { result ≡ is_acked event.now }
{
    match event {
        Event::Acked { .. } => true,
        _ => false,
    }
}

fn is_caught_up(event: &Event) -> bool
    ensures { result ≡ is_caught_up event.now }
{
    match event {
        Event::PageDone(PageOutcome::Complete) => true,
        _ => false,
    }
}

fn is_acknowledged(state: SaidState) -> bool
    ensures { result ≡ is_acknowledged state }
{
    match state {
        SaidState::Acknowledged => true,
        SaidState::Waiting | SaidState::Undecided => false,
    }
}

/// Whether the last submission is acknowledged.
pub fn is_last_acknowledged(said: &[Said]) -> bool
    ensures { result ≡ is_last_acknowledged said.now }
{
    match said.last() {
        Some(last) => is_acknowledged(last.state),
        None => false,
    }
}

/// Whether an event does what is awaited. `acknowledged` tells whether the last submission is.
pub fn does(stage: &Stage, acknowledged: bool, event: &Event) -> bool
    ensures { result ≡ does stage.now acknowledged event.now }
{
    match stage {
        Stage::Awaits(None) => is_bound(event),
        Stage::Awaits(Some(Step::Say { .. })) => acknowledged && is_acked(event),
        Stage::Awaits(Some(Step::CatchUp { .. })) => is_caught_up(event),
        Stage::Done | Stage::Failed(_) => false,
    }
}
