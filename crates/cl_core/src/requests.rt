//! Requests of the peer, and what a client has to put of itself.
ghost use Rattle.std.specs.Prelude.{◌≡◌, ◌≤◌, ◌++◌, false, not, if◌then◌else◌, IfOk, OnErr, OnOk};
ghost use Rattle.cl_core.specs.PageRows.{answer_to, iq_row, is_ping};
ghost use Rattle.cl_handlers.specs.Speech.{in_bytes};
ghost use Rattle.cl_handlers.specs.ClientSteps.{has_to_put, left};
ghost use Rattle.cl_handlers.specs.Views.{client_of, client_step_of};
ghost use Rattle.sm_outbox.specs.Sessions.{with_waiting};
ghost use Rattle.sm_outbox.specs.Waiting.{is_full, queued};
ghost use Rattle.xml_trees.specs.Readers.{elements_of};
ghost use Rattle.xml_trees.specs.Views.{nodes_view};
ghost use Rattle.xml_writer.specs.Items.{written_item};

use crate::pages::answered;
use crate::replacing::{put_session, replace_phase};
use base_io::{Bytes, NoMemory};
use cl_handlers::{ClientOut, ClientState, Event, PeerFault, Phase, make_room};
use im_extensions::Ping;
use im_replies::{Envelope, empty_result, refusal};
use im_stanza::{Condition, ErrorKind, Iq, IqKind, StanzaError};
use sm_outbox::Session;
use std::alloc::Global;
use xml_trees::{Node, next_element};

// Whether a payload is one `ping`.
#[tactic(auto, using(crate::proofs::Payloads::ping_alone, crate::proofs::Payloads::ping_more, crate::proofs::Payloads::ping_none))]
fn is_ping(payload: &[Node]) -> bool
    ensures { result ≡ is_ping (elements_of (nodes_view payload.now)) }
{
    let Some((ping, rest)) = next_element(payload) else {
        return false;
    };
    match next_element(rest) {
        Some(_) => false,
        None => Ping::read_element(ping).is_ok(),
    }
}

// The answer to a request.
fn answer(alloc: Global, request: &Iq, is_ping: bool) -> Result<Bytes, NoMemory>
    ensures { IfOk result (λ bytes. bytes.items ≡ written_item (answer_to request.now is_ping)) }
{
    let to = match &request.from {
        Some(from) => Some(from.text()),
        None => None,
    };
    let envelope = Envelope {
        from: None,
        to,
        id: request.id.as_str(),
    };
    if is_ping {
        return empty_result(alloc, &envelope);
    }
    let unavailable = StanzaError {
        kind: ErrorKind::Cancel,
        condition: Condition::ServiceUnavailable,
    };
    refusal(alloc, &envelope, &unavailable)
}

// Puts a stanza in a session, unless as many wait as may; then it answers false. Where the session is attached the stanza goes
// out too. Room for an event is made on each outcome.
fn put_or_full(
    session: &mut Session,
    stanza: Bytes,
    is_attached: bool,
    out: &mut ClientOut,
) -> Result<bool, NoMemory>
    ensures put { IfOk result (λ put. put ≡ not (is_full session.old.session.waiting)) }
    ensures session { IfOk result (λ put. session.new.session ≡ (if put then with_waiting session.old.session (queued session.old.session.waiting stanza.items false) else session.old.session)) }
    ensures bytes { IfOk result (λ put. out.new.bytes.items ≡ (if put then (if is_attached then out.old.bytes.items ++ stanza.items else out.old.bytes.items) else out.old.bytes.items)) }
    ensures events { out.new.events.items ≡ out.old.events.items }
    ensures room { OnOk result (1 ≤ out.new.events.spare) }
    ensures err { OnErr result (session.new.session ≡ session.old.session) }
    ensures err_bytes { OnErr result (out.new.bytes.items ≡ out.old.bytes.items) }
{
    session.reserve(1)?;
    make_room(out, stanza.as_slice().len(), 1)?;
    if session.is_full() {
        return Ok(false);
    }
    if is_attached {
        session.put_reserved(stanza, false, &mut out.bytes);
    } else {
        session.queue_reserved(stanza, false);
    }
    Ok(true)
}

/// Puts a stanza that the client has to put of itself. Where as many wait as may, the connection is left.
pub(crate) fn put(
    state: &mut ClientState,
    stanza: Bytes,
    out: &mut ClientOut,
) -> Result<(), NoMemory>
    ensures ok { OnOk result (client_step_of state.new out.new ≡ has_to_put in_bytes (client_step_of state.old out.old) (client_of state.old).session stanza.items) }
    ensures err { OnErr result (client_step_of state.new out.new ≡ client_step_of state.old out.old) }
{
    let is_attached = state.is_online();
    let Some(mut session) = state.session.take() else {
        return Ok(());
    };
    let put = put_or_full(&mut session, stanza, is_attached, out);
    put_session(&mut state.session, session);
    if put? {
        return Ok(());
    }
    replace_phase(&mut state.phase, Phase::Apart);
    out.events
        .push_reserved(Event::Ended(PeerFault::Unacknowledged));
    Ok(())
}

/// What an `iq` does, but for its count.
pub(crate) fn take_iq(
    state: &mut ClientState,
    alloc: Global,
    iq: &Iq,
    out: &mut ClientOut,
) -> Result<(), NoMemory>
    ensures ok { OnOk result (client_step_of state.new out.new ≡ iq_row in_bytes (client_step_of state.old out.old) iq.now) }
    ensures err { OnErr result (left (client_step_of state.new out.new) ≡ left (client_step_of state.old out.old)) }
{
    match iq.kind {
        IqKind::Get => {
            let bytes = answer(alloc, iq, is_ping(iq.payload.as_slice()))?;
            put(state, bytes, out)
        }
        IqKind::Set => {
            let bytes = answer(alloc, iq, false)?;
            put(state, bytes, out)
        }
        IqKind::Result | IqKind::Error => answered(state, alloc, iq, out),
    }
}
