//! Requests for pages (XEP-0313, section 4; XEP-0059, section 2).
ghost use Rattle.std.specs.Prelude.{◌≡◌, ◌⊎◌, ◌≤◌, ◌<◌, ◌+◌, ◌++◌, Err, None, Ok, false, length, if◌then◌else◌, IfOk, IfSome, IsSome, OnErr, OnOk};
ghost use Rattle.std.specs.Option.{option_copied};
ghost use Rattle.sm_acks.specs.declared.end.TheConstants.{MOST_UNACKNOWLEDGED};
ghost use Rattle.cl_handlers.specs.Acks.{HasFewer};
ghost use Rattle.cl_core.specs.Asking.{asks_in};
ghost use Rattle.cl_handlers.specs.Speech.{in_bytes};
ghost use Rattle.cl_core.specs.UserCalls.{catch_up_answer, catches_up};
ghost use Rattle.cl_handlers.specs.Views.{client_of, client_step_of};
ghost use Rattle.mam_log.specs.LogPages.{last_id};
ghost use Rattle.sm_outbox.specs.Sessions.{with_waiting};
ghost use Rattle.sm_outbox.specs.Submissions.{next_number};
ghost use Rattle.sm_outbox.specs.Waiting.{queued};
ghost use Rattle.im_replies.specs.Management.{request_text};
ghost use Rattle.im_requests.specs.Messages.{page_text, queryid_text};

use crate::faults::CatchUpStart;
use crate::replacing::put_session;
use crate::user::OUTBOX_BOUND;
use base_io::{Bytes, NoMemory, Text};
use cl_handlers::{ClientOut, ClientState, make_room};
use im_replies::request;
use im_requests::{PageRequest, page, queryid};
use mam_log::{BeginFault, LogEntry};
use mam_pages::MOST_RESULTS;
use sm_outbox::Session;
use std::alloc::Global;

/// A page that is to be asked for: the number of the request, the id of the query, what is put, and the request for its
/// acknowledgement.
#[derive(Drop)]
pub(crate) struct Asking {
    pub(crate) number: u64,
    pub(crate) queryid: Text,
    pub(crate) stanza: Bytes,
    pub(crate) request: Bytes,
}

// The id of the last entry.
fn last_id(entries: &[LogEntry]) -> Option<&str>
    ensures { option_copied result ≡ last_id entries.now }
{
    match entries.split_last() {
        Some((last, _)) => Some(last.id.as_str()),
        None => None,
    }
}

// Puts a stanza in a session, whose queue has place, and for which room is made. Where the session is attached the stanza
// goes out, and the request for its acknowledgement behind it.
fn put_with_request(
    session: &mut Session,
    stanza: Bytes,
    request: &[u8],
    is_attached: bool,
    out: &mut Bytes,
)
    requires few { length session.old.session.waiting.queue < MOST_UNACKNOWLEDGED }
    requires spare { 1 ≤ session.old.spare }
    requires room { length stanza.items + length request.now ≤ out.old.spare }
    ensures session { session.new.session ≡ with_waiting session.old.session (queued session.old.session.waiting stanza.items false) }
    ensures out { out.new.items ≡ (if is_attached then (out.old.items ++ stanza.items) ++ request.now else out.old.items) }
{
    if is_attached {
        session.put_reserved(stanza, false, out);
        out.append_reserved(request);
    } else {
        session.queue_reserved(stanza, false);
    }
}

/// The request for a page behind an id, or for the first page. Nothing changes.
pub(crate) fn asking_for(
    state: &ClientState,
    alloc: Global,
    after: Option<&str>,
    max: u32,
) -> Result<Asking, NoMemory>
    ensures number { IfOk result (λ asking. asking.number ≡ next_number state.now.pages) }
    ensures queryid { IfOk result (λ asking. asking.queryid ≡ queryid_text (next_number state.now.pages)) }
    ensures stanza { IfOk result (λ asking. asking.stanza.items ≡ page_text (queryid_text (next_number state.now.pages)) (option_copied after.entry) max) }
    ensures request { IfOk result (λ asking. asking.request.items ≡ request_text) }
{
    let number = state.pages.saturating_add(1);
    let queryid = queryid(alloc, number)?;
    let asked = PageRequest {
        queryid: queryid.as_str(),
        after,
        max,
    };
    let stanza = page(alloc, &asked)?;
    let request = request(alloc)?;
    Ok(Asking {
        number,
        queryid,
        stanza,
        request,
    })
}

/// The request for the page behind the log's last entry. Nothing changes.
fn asking_after(state: &ClientState, alloc: Global, max: u32) -> Result<Asking, NoMemory>
    ensures number { IfOk result (λ asking. asking.number ≡ next_number state.now.pages) }
    ensures queryid { IfOk result (λ asking. asking.queryid ≡ queryid_text (next_number state.now.pages)) }
    ensures stanza { IfOk result (λ asking. asking.stanza.items ≡ page_text (queryid_text (next_number state.now.pages)) (last_id state.now.log.entries) max) }
    ensures request { IfOk result (λ asking. asking.request.items ≡ request_text) }
{
    asking_for(state, alloc, last_id(state.log.entries()), max)
}

/// Makes room for a page request and for so many events. Nothing is put.
pub(crate) fn make_place(
    state: &mut ClientState,
    asking: &Asking,
    events: usize,
    out: &mut ClientOut,
) -> Result<(), NoMemory>
    ensures turn { client_step_of state.new out.new ≡ client_step_of state.old out.old }
    ensures position { OnOk result (IfSome state.new.session (λ s. 1 ≤ s.spare)) }
    ensures room_bytes { OnOk result (length asking.now.stanza.items + length asking.now.request.items ≤ out.new.bytes.spare) }
    ensures room_events { OnOk result (events ≤ out.new.events.spare) }
{
    let stanza = asking.stanza.as_slice().len();
    let request = asking.request.as_slice().len();
    make_room(out, stanza.saturating_add(request), events)?;
    let Some(mut session) = state.session.take() else {
        return Ok(());
    };
    let made = session.reserve(1);
    put_session(&mut state.session, session);
    made
}

/// Puts a page request, whose room is made, where a session stands, whose queue has place. It takes no memory.
pub(crate) fn put_page(
    state: &mut ClientState,
    number: u64,
    stanza: Bytes,
    request: &[u8],
    out: &mut ClientOut,
)
    requires few { HasFewer MOST_UNACKNOWLEDGED (client_of state.old).session }
    requires position { IfSome state.old.session (λ s. 1 ≤ s.spare) }
    requires room { length stanza.items + length request.now ≤ out.old.bytes.spare }
    requires request { request.now ≡ request_text }
    ensures turn { client_step_of state.new out.new ≡ asks_in in_bytes (client_step_of state.old out.old) (client_of state.old).session number stanza.items }
    ensures events { out.new.events ≡ out.old.events }
{
    let is_attached = state.is_online();
    let Some(mut session) = state.session.take() else {
        return;
    };
    put_with_request(&mut session, stanza, request, is_attached, &mut out.bytes);
    put_session(&mut state.session, session);
    state.pages = number;
}

// Why no page is asked for.
fn may_catch_up(state: &ClientState) -> Result<(), CatchUpStart>
    ensures value { result ≡ catch_up_answer (client_of state.now) }
    ensures bound { OnOk result (IsSome (client_of state.now).session) }
    ensures few { OnOk result (HasFewer 1000 (client_of state.now).session) }
    ensures closed { OnOk result (state.now.log.page ≡ None) }
{
    let Some(session) = &state.session else {
        return Err(CatchUpStart::NotBound);
    };
    if session.len() >= OUTBOX_BOUND {
        return Err(CatchUpStart::OutboxFull);
    }
    if state.log.underway().is_some() {
        return Err(CatchUpStart::Underway);
    }
    Ok(())
}

// Begins a page, where none is open, and puts the request for it in the session, whose queue has place.
#[tactic(auto, using(crate::proofs::UserSteps::caught_up, crate::proofs::UserSteps::fewer_still, crate::proofs::UserSteps::some_still))]
fn begin_page(
    state: &mut ClientState,
    alloc: Global,
    asking: Asking,
    max: u32,
    out: &mut ClientOut,
) -> Result<(), NoMemory>
    requires max { (1 ≤ max) × (max ≤ MOST_RESULTS) }
    requires bound { IsSome (client_of state.old).session }
    requires few { HasFewer 1000 (client_of state.old).session }
    requires closed { state.old.log.page ≡ None }
    requires number { asking.number ≡ next_number state.old.pages }
    requires queryid { asking.queryid ≡ queryid_text (next_number state.old.pages) }
    requires stanza { asking.stanza.items ≡ page_text (queryid_text (next_number state.old.pages)) (last_id state.old.log.entries) max }
    requires request { asking.request.items ≡ request_text }
    ensures ok { OnOk result (client_step_of state.new out.new ≡ catches_up in_bytes (client_step_of state.old out.old) max) }
    ensures err { OnErr result (client_step_of state.new out.new ≡ client_step_of state.old out.old) }
{
    make_place(state, &asking, 0, out)?;
    let Asking {
        number,
        queryid,
        stanza,
        request,
    } = asking;
    match state.log.begin(alloc, queryid, max) {
        Ok(()) => {}
        Err(BeginFault::NoMemory) => return Err(NoMemory),
        Err(BeginFault::Underway) => unreachable!(),
    }
    put_page(state, number, stanza, request.as_slice(), out);
    Ok(())
}

/// Asks for a page behind the log's last entry, of so many results at most. A refusal leaves all as it was.
pub(crate) fn catch_up(
    state: &mut ClientState,
    alloc: Global,
    max: u32,
    out: &mut ClientOut,
) -> Result<(), CatchUpStart>
    requires { (1 ≤ max) × (max ≤ MOST_RESULTS) }
    ensures exact { (result ≡ Err CatchUpStart.NoMemory) ⊎ (result ≡ catch_up_answer (client_of state.old)) }
    ensures ok { OnOk result (client_step_of state.new out.new ≡ catches_up in_bytes (client_step_of state.old out.old) max) }
    ensures err { OnErr result (client_step_of state.new out.new ≡ client_step_of state.old out.old) }
{
    may_catch_up(state)?;
    let asking = asking_after(state, alloc, max)?;
    begin_page(state, alloc, asking, max, out)?;
    Ok(())
}
