//! The events of a journal happen to a server.
ghost use Rattle.std.specs.Prelude.{◌≡◌, OnOk, map};
ghost use Rattle.cmd_journal.specs.Journals.{event_view};
ghost use Rattle.cmd_rerun.specs.Reruns.{AreFresh, IsFresh, after_event, after_events, run_of};

use base_io::NoMemory;
use cmd_journal::Event;
use srv_core::{Outputs, Server};

// One event. What comes of it stands behind the outputs that were there.
#[tactic(auto, using(crate::proofs::EventRuns::piece_is))]
fn on_event(server: &mut Server, event: &Event, outputs: &mut Outputs) -> Result<(), NoMemory>
    requires { IsFresh (event_view event.now) server.old }
    ensures { OnOk result (run_of server.new outputs.new.items ≡ after_event (event_view event.now) (run_of server.old outputs.old.items)) }
{
    match event {
        Event::Connect {
            connection,
            moment,
            entropy,
        } => server.connect(*connection, entropy, *moment),
        Event::Piece {
            connection,
            moment,
            bytes,
        } => server.bytes(*connection, bytes.as_slice(), *moment, outputs),
        Event::Gone { connection, moment } => {
            server.gone(*connection, *moment);
            Ok(())
        }
    }
}

/// All events, in order.
pub(crate) fn on_events(
    server: &mut Server,
    events: &[Event],
    outputs: &mut Outputs,
) -> Result<(), NoMemory>
    requires { AreFresh (map event_view events.now) (run_of server.old outputs.old.items) }
    ensures { OnOk result (run_of server.new outputs.new.items ≡ after_events (map event_view events.now) (run_of server.old outputs.old.items)) }
{
    for event in events {
        on_event(server, event, outputs)?;
    }
    Ok(())
}
