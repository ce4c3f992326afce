//! What answers a page request (XEP-0313, sections 4.2 and 4.3): the end of the page, or an error.
//!
//! No next page is made ready behind the last one.
ghost use Rattle.std.specs.Prelude.{◌≡◌, ℕ, ◌≤◌, ◌||◌, Some, None, is_some, not, true, false, IfOk, IfSome, IsSome, OnErr, OnOk};
ghost use Rattle.std.specs.Option.{option_copied};
ghost use Rattle.sm_acks.specs.declared.end.TheConstants.{MOST_UNACKNOWLEDGED};
ghost use Rattle.cl_handlers.specs.Acks.{HasFewer};
ghost use Rattle.cl_handlers.specs.MessageRows.{error_within, refuses};
ghost use Rattle.cl_core.specs.PageRows;
ghost use Rattle.cl_core.specs.PageRows.{answered_page, catch_up_fault, error_of_page, nothing_told, only_fin, page_answered, page_ended, restarts, result_of_page};
ghost use Rattle.cl_handlers.specs.Speech.{in_bytes};
ghost use Rattle.cl_handlers.specs.Views.{client_of, client_step_of};
ghost use Rattle.mam_log.specs.Views.{OpenPage, end_of, page_for};
ghost use Rattle.sm_outbox.specs.Submissions.{next_number};
ghost use Rattle.im_replies.specs.Management.{request_text};
ghost use Rattle.im_requests.specs.Messages.{page_text, queryid_text};
ghost use Rattle.xml_trees.specs.Readers.{elements_of};
ghost use Rattle.xml_trees.specs.Views.{nodes_view};

use crate::page_requests::{Asking, asking_for, make_place, put_page};
use crate::replacing::replace_phase;
use base_io::{NoMemory, Text};
use cl_handlers::{CatchUpFault, ClientOut, ClientState, Event, PeerFault, Phase};
use im_mam::read_fin_element;
use im_payload::ExtFault;
use im_stanza::{Condition, Iq, IqKind, StanzaErrorFault, stanza_error_in};
use mam_log::{FinFault, PageOutcome};
use mam_pages::Fin;
use std::alloc::Global;
use xml_trees::{Node, next_element};

// Why a page was not taken over, as a fault of the catch-up.
fn catch_up_fault(fault: FinFault) -> CatchUpFault
    ensures { result ≡ catch_up_fault fault }
{
    match fault {
        FinFault::Mismatch { last, got } => CatchUpFault::Mismatch { last, got },
        FinFault::Repeats(id) => CatchUpFault::Repeats(id),
        FinFault::NoAdvance | FinFault::Stranger | FinFault::NoMemory => CatchUpFault::NoAdvance,
    }
}

// The fault of an answer that tells no end of a page, and no condition.
fn nothing_told(alloc: Global) -> Result<CatchUpFault, NoMemory>
    ensures { IfOk result (λ fault. fault ≡ nothing_told) }
{
    let condition = Text::from_str(alloc, "undefined-condition")?;
    Ok(CatchUpFault::Refused(Condition::Other(condition)))
}

// The end of a page, where a payload is that alone.
#[tactic(auto, using(crate::proofs::Payloads::fin_alone, crate::proofs::Payloads::fin_more, crate::proofs::Payloads::fin_none))]
fn only_fin(alloc: Global, payload: &[Node]) -> Result<Option<Fin>, NoMemory>
    ensures { IfOk result (λ fin. fin ≡ only_fin (elements_of (nodes_view payload.now))) }
{
    let Some((first, rest)) = next_element(payload) else {
        return Ok(None);
    };
    if let Some(_) = next_element(rest) {
        return Ok(None);
    }
    match read_fin_element(alloc, first) {
        Ok(fin) => Ok(Some(fin)),
        Err(ExtFault::NoMemory) => Err(NoMemory),
        Err(ExtFault::NotThis | ExtFault::Bad(_)) => Ok(None),
    }
}

// An id that may be absent, without a copy.
fn borrowed(id: &Option<Text>) -> Option<&str>
    ensures { option_copied result ≡ id.now }
{
    match id {
        Some(id) => Some(id.as_str()),
        None => None,
    }
}

// Whether the archive doesn't keep the place that was asked for.
fn is_not_found(condition: &Condition) -> bool
    ensures { result ≡ PageRows.is_not_found condition.now }
{
    match condition {
        Condition::ItemNotFound => true,
        _ => false,
    }
}

// Whether an id is that of the open page's query.
#[tactic(auto, using(crate::proofs::OpenPages::named_page, crate::proofs::OpenPages::no_page))]
fn is_page(state: &ClientState, id: &str) -> bool
    ensures { result ≡ is_some (page_for id.now state.now.log.page) }
{
    match state.log.underway() {
        Some(queryid) => queryid == id,
        None => false,
    }
}

// Whether a session stands whose queue has place.
fn has_room(state: &ClientState) -> bool
    ensures value { result ≡ PageRows.has_room (client_of state.now).session }
    ensures few { result ≡ true → HasFewer MOST_UNACKNOWLEDGED (client_of state.now).session }
{
    match &state.session {
        Some(session) => !session.is_full(),
        None => false,
    }
}

// Ends the catch-up before its last page.
fn refuse(state: &mut ClientState, fault: CatchUpFault, out: &mut ClientOut) -> Result<(), NoMemory>
    ensures ok { OnOk result (client_step_of state.new out.new ≡ refuses (client_step_of state.old out.old) fault) }
    ensures err { OnErr result (client_step_of state.new out.new ≡ client_step_of state.old out.old) }
{
    out.events.reserve(1)?;
    state.log.break_off();
    out.events.push_reserved(Event::CatchUpRefused(fault));
    Ok(())
}

// Leaves the connection, since something has to be put and as many stanzas wait as may, where a session stands.
fn leave_full(state: &mut ClientState, out: &mut ClientOut)
    requires room { 1 ≤ out.old.events.spare }
    ensures { client_step_of state.new out.new ≡ PageRows.leaves_full (client_step_of state.old out.old) (client_of state.old).session }
{
    if state.session.is_some() {
        replace_phase(&mut state.phase, Phase::Apart);
        out.events
            .push_reserved(Event::Ended(PeerFault::Unacknowledged));
    }
}

// Ends the page where none is asked for behind it: it is the last, or the queue has no place.
#[tactic(auto, using(crate::proofs::PageEnds::complete, crate::proofs::PageEnds::more_full, crate::proofs::PageEnds::refused))]
fn end_page(
    state: &mut ClientState,
    alloc: Global,
    queryid: &str,
    fin: &Fin,
    out: &mut ClientOut,
) -> Result<(), NoMemory>
    requires last { (fin.now.complete || not (PageRows.has_room (client_of state.old).session)) ≡ true }
    ensures ok { OnOk result ((page : OpenPage) → page_for queryid.now state.old.log.page ≡ Some page → client_step_of state.new out.new ≡ page_ended in_bytes (client_step_of state.old out.old) page fin.now (end_of state.old.log page fin.now)) }
    ensures err { OnErr result (client_step_of state.new out.new ≡ client_step_of state.old out.old) }
{
    out.events.reserve(2)?;
    match state.log.fin(alloc, queryid, fin) {
        Ok(PageOutcome::Complete) => out
            .events
            .push_reserved(Event::PageDone(PageOutcome::Complete)),
        Ok(PageOutcome::More) => {
            out.events.push_reserved(Event::PageDone(PageOutcome::More));
            leave_full(state, out);
        }
        Err(FinFault::NoMemory) => return Err(NoMemory),
        Err(fault) => out
            .events
            .push_reserved(Event::CatchUpRefused(catch_up_fault(fault))),
    }
    Ok(())
}

// Ends the page, and asks for the next one where it isn't the last.
#[tactic(auto, using(crate::proofs::PageEnds::complete, crate::proofs::PageEnds::more_position, crate::proofs::PageEnds::refused, crate::proofs::UserSteps::few_still))]
fn end_and_go_on(
    state: &mut ClientState,
    alloc: Global,
    queryid: &str,
    fin: &Fin,
    asking: Asking,
    out: &mut ClientOut,
) -> Result<(), NoMemory>
    requires position { PageRows.has_room (client_of state.old).session ≡ true }
    requires few { HasFewer MOST_UNACKNOWLEDGED (client_of state.old).session }
    requires number { asking.number ≡ next_number state.old.pages }
    requires queryid { asking.queryid ≡ queryid_text (next_number state.old.pages) }
    requires stanza { IfSome state.old.log.page (λ page. asking.stanza.items ≡ page_text (queryid_text (next_number state.old.pages)) fin.now.last page.max) }
    requires request { asking.request.items ≡ request_text }
    ensures ok { OnOk result ((page : OpenPage) → page_for queryid.now state.old.log.page ≡ Some page → client_step_of state.new out.new ≡ page_ended in_bytes (client_step_of state.old out.old) page fin.now (end_of state.old.log page fin.now)) }
    ensures err { OnErr result (client_step_of state.new out.new ≡ client_step_of state.old out.old) }
{
    make_place(state, &asking, 2, out)?;
    let Asking {
        number,
        queryid: next,
        stanza,
        request,
    } = asking;
    match state.log.fin_then_begin(alloc, queryid, fin, next) {
        Ok(PageOutcome::Complete) => out
            .events
            .push_reserved(Event::PageDone(PageOutcome::Complete)),
        Ok(PageOutcome::More) => {
            out.events.push_reserved(Event::PageDone(PageOutcome::More));
            put_page(state, number, stanza, request.as_slice(), out);
        }
        Err(FinFault::NoMemory) => return Err(NoMemory),
        Err(fault) => out
            .events
            .push_reserved(Event::CatchUpRefused(catch_up_fault(fault))),
    }
    Ok(())
}

// The server tells the end of the open page. The next one is asked for where this isn't the last and the queue has place.
#[tactic(auto, using(crate::proofs::OpenPages::none_closed, crate::proofs::OpenPages::asked_most))]
fn end_told(
    state: &mut ClientState,
    alloc: Global,
    answer: &Iq,
    fin: &Fin,
    out: &mut ClientOut,
) -> Result<(), NoMemory>
    ensures ok { OnOk result ((page : OpenPage) → page_for answer.now.id state.old.log.page ≡ Some page → client_step_of state.new out.new ≡ page_ended in_bytes (client_step_of state.old out.old) page fin.now (end_of state.old.log page fin.now)) }
    ensures err { OnErr result (client_step_of state.new out.new ≡ client_step_of state.old out.old) }
{
    let queryid = answer.id.as_str();
    if fin.complete || !has_room(state) {
        return end_page(state, alloc, queryid, fin, out);
    }
    let Some(max) = state.log.most() else {
        return Ok(());
    };
    let asking = asking_for(state, alloc, borrowed(&fin.last), max)?;
    end_and_go_on(state, alloc, queryid, fin, asking, out)
}

// The server answers the request for the open page by a result.
fn result_to_page(
    state: &mut ClientState,
    alloc: Global,
    answer: &Iq,
    out: &mut ClientOut,
) -> Result<(), NoMemory>
    ensures ok { OnOk result ((page : OpenPage) → page_for answer.now.id state.old.log.page ≡ Some page → client_step_of state.new out.new ≡ result_of_page in_bytes (client_step_of state.old out.old) page (only_fin (elements_of answer.now.payload))) }
    ensures err { OnErr result (client_step_of state.new out.new ≡ client_step_of state.old out.old) }
{
    match only_fin(alloc, answer.payload.as_slice())? {
        Some(fin) => end_told(state, alloc, answer, &fin, out),
        None => {
            let fault = nothing_told(alloc)?;
            refuse(state, fault, out)
        }
    }
}

// Asks for the open page anew.
#[tactic(auto, using(crate::proofs::PageEnds::anew, crate::proofs::PageEnds::may_restart, crate::proofs::UserSteps::few_still))]
fn restart(
    state: &mut ClientState,
    alloc: Global,
    queryid: &str,
    asking: Asking,
    out: &mut ClientOut,
) -> Result<(), NoMemory>
    requires position { PageRows.has_room (client_of state.old).session ≡ true }
    requires few { HasFewer MOST_UNACKNOWLEDGED (client_of state.old).session }
    requires number { asking.number ≡ next_number state.old.pages }
    requires queryid { asking.queryid ≡ queryid_text (next_number state.old.pages) }
    requires stanza { IfSome state.old.log.page (λ page. asking.stanza.items ≡ page_text (queryid_text (next_number state.old.pages)) None page.max) }
    requires request { asking.request.items ≡ request_text }
    ensures ok { OnOk result ((page : OpenPage) → page_for queryid.now state.old.log.page ≡ Some page → IsSome page.after → client_step_of state.new out.new ≡ restarts in_bytes (client_step_of state.old out.old) (client_of state.old).session page.max) }
    ensures err { OnErr result (client_step_of state.new out.new ≡ client_step_of state.old out.old) }
{
    make_place(state, &asking, 0, out)?;
    let Asking {
        number,
        queryid: fresh,
        stanza,
        request,
    } = asking;
    match state.log.restart(alloc, queryid, fresh) {
        Ok(()) => put_page(state, number, stanza, request.as_slice(), out),
        Err(_) => {}
    }
    Ok(())
}

// Breaks the catch-up off, since something has to be put and as many stanzas wait as may, where a session stands.
#[tactic(auto, using(crate::proofs::PageEnds::full_anew))]
fn break_full(state: &mut ClientState, out: &mut ClientOut)
    requires full { PageRows.has_room (client_of state.old).session ≡ false }
    requires room { 1 ≤ out.old.events.spare }
    ensures { (max : ℕ) → client_step_of state.new out.new ≡ restarts in_bytes (client_step_of state.old out.old) (client_of state.old).session max }
{
    if state.session.is_some() {
        state.log.break_off();
        replace_phase(&mut state.phase, Phase::Apart);
        out.events
            .push_reserved(Event::Ended(PeerFault::Unacknowledged));
    }
}

// The archive doesn't keep the place of the open page.
#[tactic(auto, using(crate::proofs::OpenPages::none_closed, crate::proofs::OpenPages::asked_most))]
fn ask_anew(
    state: &mut ClientState,
    alloc: Global,
    queryid: &str,
    out: &mut ClientOut,
) -> Result<(), NoMemory>
    ensures ok { OnOk result ((page : OpenPage) → page_for queryid.now state.old.log.page ≡ Some page → IsSome page.after → client_step_of state.new out.new ≡ restarts in_bytes (client_step_of state.old out.old) (client_of state.old).session page.max) }
    ensures err { OnErr result (client_step_of state.new out.new ≡ client_step_of state.old out.old) }
{
    if has_room(state) {
        let Some(max) = state.log.most() else {
            return Ok(());
        };
        let asking = asking_for(state, alloc, None, max)?;
        return restart(state, alloc, queryid, asking, out);
    }
    out.events.reserve(1)?;
    break_full(state, out);
    Ok(())
}

// The server answers the request for the open page by an error.
#[tactic(auto, using(crate::proofs::OpenPages::kept_position, crate::proofs::OpenPages::no_position))]
fn error_to_page(
    state: &mut ClientState,
    alloc: Global,
    answer: &Iq,
    out: &mut ClientOut,
) -> Result<(), NoMemory>
    ensures ok { OnOk result ((page : OpenPage) → page_for answer.now.id state.old.log.page ≡ Some page → client_step_of state.new out.new ≡ error_of_page in_bytes (client_step_of state.old out.old) page (error_within answer.now.payload)) }
    ensures err { OnErr result (client_step_of state.new out.new ≡ client_step_of state.old out.old) }
{
    match stanza_error_in(alloc, answer.payload.as_slice()) {
        Ok(error) => {
            if is_not_found(&error.condition) && state.log.position().is_some() {
                ask_anew(state, alloc, answer.id.as_str(), out)
            } else {
                refuse(state, CatchUpFault::Refused(error.condition), out)
            }
        }
        Err(StanzaErrorFault::NoMemory) => Err(NoMemory),
        Err(StanzaErrorFault::NoError) => {
            let fault = nothing_told(alloc)?;
            refuse(state, fault, out)
        }
    }
}

// The answer to the request for the open page.
fn answer_to_page(
    state: &mut ClientState,
    alloc: Global,
    answer: &Iq,
    out: &mut ClientOut,
) -> Result<(), NoMemory>
    ensures ok { OnOk result ((page : OpenPage) → page_for answer.now.id state.old.log.page ≡ Some page → client_step_of state.new out.new ≡ answered_page in_bytes (client_step_of state.old out.old) answer.now page answer.now.kind) }
    ensures err { OnErr result (client_step_of state.new out.new ≡ client_step_of state.old out.old) }
{
    match answer.kind {
        IqKind::Result => result_to_page(state, alloc, answer, out),
        IqKind::Error => error_to_page(state, alloc, answer, out),
        IqKind::Get | IqKind::Set => Ok(()),
    }
}

/// The answer to a request of the client's.
#[tactic(auto, using(crate::proofs::OpenPages::other_id, crate::proofs::OpenPages::other_sender, crate::proofs::OpenPages::answer_taken))]
pub(crate) fn answered(
    state: &mut ClientState,
    alloc: Global,
    answer: &Iq,
    out: &mut ClientOut,
) -> Result<(), NoMemory>
    ensures ok { OnOk result (client_step_of state.new out.new ≡ page_answered in_bytes (client_step_of state.old out.old) answer.now (page_for answer.now.id state.old.log.page)) }
    ensures err { OnErr result (client_step_of state.new out.new ≡ client_step_of state.old out.old) }
{
    if !is_page(state, answer.id.as_str()) {
        return Ok(());
    }
    if !state.is_own_or_absent(&answer.from) {
        return Ok(());
    }
    answer_to_page(state, alloc, answer, out)
}
