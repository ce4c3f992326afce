//! What the events of a piece say together, in their order.
ghost use Rattle.std.specs.Prelude.{◌≡◌};
ghost use Rattle.cmd_sync.specs.Courses.{seen_next, seen_over};

use crate::events::{does, failure_of};
use crate::failure::PeerFailure;
use crate::stage::Stage;
use cl_core::Event;

/// What events say of what is awaited.
#[derive(Clone, Copy, Debug, PartialEq, Eq)]
pub enum Seen {
    /// Nothing yet.
    Still,
    /// It is not done, for this.
    Fails(PeerFailure),
    /// It is done; and this failed behind it, where something did.
    Does(Option<PeerFailure>),
}

// What is seen with an event more.
fn seen_next(is_done: bool, failure: Option<PeerFailure>, before: Seen) -> Seen
    ensures { result ≡ seen_next is_done failure before }
{
    match before {
        Seen::Fails(first) => Seen::Fails(first),
        Seen::Does(Some(first)) => Seen::Does(Some(first)),
        Seen::Does(None) => Seen::Does(failure),
        Seen::Still => {
            if is_done {
                return Seen::Does(None);
            }
            match failure {
                Some(failure) => Seen::Fails(failure),
                None => Seen::Still,
            }
        }
    }
}

/// What events say, one behind the other.
pub fn seen_over(stage: &Stage, acknowledged: bool, events: &[Event]) -> Seen
    ensures { result ≡ seen_over stage.now acknowledged events.now }
{
    let mut before = Seen::Still;
    for event in events {
        let is_done = does(stage, acknowledged, event);
        before = seen_next(is_done, failure_of(event), before);
    }
    before
}
