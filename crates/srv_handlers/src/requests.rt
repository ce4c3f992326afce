//! The row on requests (RFC 6120, section 8.2.3): each is answered, and the answer is counted as handled with it.
ghost use Rattle.std.specs.Prelude.{◌≡◌, ◌≤◌, [], ◌∷◌, IfOk, OnErr, OnOk, Some, length};
ghost use Rattle.srv_state.specs.Handling.{counting};
ghost use Rattle.srv_state.specs.Seen.{server_state_of, step_of};
ghost use Rattle.srv_state.specs.State;
ghost use Rattle.srv_state.specs.Steps.{Copy, Send, acted};
ghost use Rattle.sm_live.specs.Sessions.{info_of};
ghost use Rattle.im_replies.specs.Requests.{envelope_view, iq_error_item, items_item, result_item, roster_item};
ghost use Rattle.srv_handlers.specs.Requests.{answering_iq, at_iq, info_item, serving};
ghost use Rattle.xml_trees.specs.Trees.{no_nodes};
ghost use Rattle.xml_writer.specs.Items.{written_item};

use crate::asking::request_of;
use crate::envelopes::envelope_to;
use crate::queries::on_query;
use crate::request::Request;
use base_io::{Bytes, NoMemory};
use im_replies::{Envelope, account_info, empty_result, items, refusal, roster, server_info};
use im_stanza::{Iq, StanzaError};
use sm_live::SessionInfo;
use srv_state::{OutgoingStanza, ServerContext};
use std::alloc::Global;

// ---- answers

// A request is done.
fn answer_done(
    context: &mut ServerContext,
    envelope: &Envelope<'_>,
    told: &SessionInfo,
) -> Result<(), NoMemory>
    requires { Some told.now ≡ info_of told.now.number (server_state_of context.old).sessions }
    ensures ok { OnOk result (step_of context.new ≡ acted written_item (counting told.now (answering_iq written_item told.now (result_item (envelope_view envelope.now) no_nodes))) (step_of context.old)) }
    ensures err { OnErr result (step_of context.new ≡ step_of context.old) }
{
    let answer = empty_result(context.alloc, envelope)?;
    context.reply(told, answer)
}

// What the domain is, or else the account (XEP-0030, section 3.1).
fn info(alloc: Global, envelope: &Envelope<'_>, at_domain: bool) -> Result<Bytes, NoMemory>
    ensures { IfOk result (λ b. b.items ≡ written_item (info_item at_domain (envelope_view envelope.now))) }
{
    if at_domain {
        server_info(alloc, envelope)
    } else {
        account_info(alloc, envelope)
    }
}

fn answer_info(
    context: &mut ServerContext,
    at_domain: bool,
    envelope: &Envelope<'_>,
    told: &SessionInfo,
) -> Result<(), NoMemory>
    requires { Some told.now ≡ info_of told.now.number (server_state_of context.old).sessions }
    ensures ok { OnOk result (step_of context.new ≡ acted written_item (counting told.now (answering_iq written_item told.now (info_item at_domain (envelope_view envelope.now)))) (step_of context.old)) }
    ensures err { OnErr result (step_of context.new ≡ step_of context.old) }
{
    let answer = info(context.alloc, envelope, at_domain)?;
    context.reply(told, answer)
}

// There are no items, of whatever node (XEP-0030, section 4.1).
fn answer_items(
    context: &mut ServerContext,
    node: &str,
    envelope: &Envelope<'_>,
    told: &SessionInfo,
) -> Result<(), NoMemory>
    requires { Some told.now ≡ info_of told.now.number (server_state_of context.old).sessions }
    ensures ok { OnOk result (step_of context.new ≡ acted written_item (counting told.now (answering_iq written_item told.now (items_item node.now (envelope_view envelope.now)))) (step_of context.old)) }
    ensures err { OnErr result (step_of context.new ≡ step_of context.old) }
{
    let answer = items(context.alloc, envelope, node)?;
    context.reply(told, answer)
}

fn answer_roster(
    context: &mut ServerContext,
    envelope: &Envelope<'_>,
    told: &SessionInfo,
) -> Result<(), NoMemory>
    requires { Some told.now ≡ info_of told.now.number (server_state_of context.old).sessions }
    ensures ok { OnOk result (step_of context.new ≡ acted written_item (counting told.now (answering_iq written_item told.now (roster_item (envelope_view envelope.now)))) (step_of context.old)) }
    ensures err { OnErr result (step_of context.new ≡ step_of context.old) }
{
    let answer = roster(context.alloc, envelope)?;
    context.reply(told, answer)
}

fn refuse(
    context: &mut ServerContext,
    error: &StanzaError,
    envelope: &Envelope<'_>,
    told: &SessionInfo,
) -> Result<(), NoMemory>
    requires { Some told.now ≡ info_of told.now.number (server_state_of context.old).sessions }
    ensures ok { OnOk result (step_of context.new ≡ acted written_item (counting told.now (answering_iq written_item told.now (iq_error_item (envelope_view envelope.now) error.now))) (step_of context.old)) }
    ensures err { OnErr result (step_of context.new ≡ step_of context.old) }
{
    let answer = refusal(context.alloc, envelope, error)?;
    context.reply(told, answer)
}

// ---- copies on and off (XEP-0280, sections 4 and 5)

// Copies are switched on or off, and then the answer goes. All memory was taken.
#[tactic(auto, using(crate::proofs::Countings::counts_first, crate::proofs::Countings::lives_counted))]
fn switch(
    context: &mut ServerContext,
    told: &SessionInfo,
    on: bool,
    outgoing_stanza: OutgoingStanza,
)
    requires told { Some told.now ≡ info_of told.now.number (server_state_of context.old).sessions }
    requires to { outgoing_stanza.number ≡ told.now.number }
    requires room { 1 ≤ context.old.live.room }
    requires out { 3 ≤ context.old.out.spare }
    requires requests { 1 ≤ length context.old.prebuilt.requests.items }
    requires overflows { 1 ≤ length context.old.prebuilt.overflows.items }
    ensures { step_of context.new ≡ acted written_item (counting told.now (Copy told.now.number on ∷ Send told.now.number outgoing_stanza.shown.items ∷ [])) (step_of context.old) }
{
    context.count(told);
    context.live.set_carbons(told.number, on);
    context.send(outgoing_stanza);
}

fn answer_switch(
    context: &mut ServerContext,
    on: bool,
    envelope: &Envelope<'_>,
    told: &SessionInfo,
) -> Result<(), NoMemory>
    requires { Some told.now ≡ info_of told.now.number (server_state_of context.old).sessions }
    ensures ok { OnOk result (step_of context.new ≡ acted written_item (counting told.now (Copy told.now.number on ∷ answering_iq written_item told.now (result_item (envelope_view envelope.now) no_nodes))) (step_of context.old)) }
    ensures err { OnErr result (step_of context.new ≡ step_of context.old) }
{
    let answer = empty_result(context.alloc, envelope)?;
    let outgoing_stanza = OutgoingStanza::new(context.alloc, told.number, answer)?;
    context.reserve_stanzas(1)?;
    switch(context, told, on, outgoing_stanza);
    Ok(())
}

// ---- the row

// What is asked for is done and answered. The session has this full address.
fn serve(
    context: &mut ServerContext,
    request: &Request,
    iq: &Iq,
    full: &str,
    told: &SessionInfo,
) -> Result<(), NoMemory>
    requires told { Some told.now ≡ info_of told.now.number (server_state_of context.old).sessions }
    requires full { full.now ≡ State.session_address told.now.number (server_state_of context.old) }
    ensures ok { OnOk result (step_of context.new ≡ acted written_item (counting told.now (serving written_item (Some request.now) iq.now told.now (server_state_of context.old))) (step_of context.old)) }
    ensures err { OnErr result (step_of context.new ≡ step_of context.old) }
{
    let envelope = envelope_to(iq, full);
    match request {
        Request::Ping => answer_done(context, &envelope, told),
        Request::Info { at_domain } => answer_info(context, *at_domain, &envelope, told),
        Request::Items { node } => answer_items(context, node.as_str(), &envelope, told),
        Request::Roster => answer_roster(context, &envelope, told),
        Request::Session => answer_done(context, &envelope, told),
        Request::Carbons { on } => answer_switch(context, *on, &envelope, told),
        Request::Archive(query) => on_query(context, query, iq, full, told),
        Request::Refused(error) => refuse(context, error, &envelope, told),
    }
}

// What is asked for, by a session.
fn serve_session(
    context: &mut ServerContext,
    request: &Request,
    iq: &Iq,
    told: &SessionInfo,
) -> Result<(), NoMemory>
    requires { Some told.now ≡ info_of told.now.number (server_state_of context.old).sessions }
    ensures ok { OnOk result (step_of context.new ≡ acted written_item (counting told.now (serving written_item (Some request.now) iq.now told.now (server_state_of context.old))) (step_of context.old)) }
    ensures err { OnErr result (step_of context.new ≡ step_of context.old) }
{
    let full = context.session_address(told.number)?;
    serve(context, request, iq, full.as_str(), told)
}

/// An `iq` of a session that is on a connection (RFC 6120, section 8.2.3). A result and an error ask for nothing, and get
/// no answer. Each request gets one, from where it was to and to the session's full address:
///
/// - `bad-request` where it has no child element or several (section 8.2.3), and else `service-unavailable` where it is
///   to another address than the domain or the bare address of the session's account, or asks for nothing that is served
///   by its type;
/// - of type `get`: a ping (XEP-0199, section 4) gets an empty result; a query of service discovery what the domain is, or
///   what the account is where the request isn't to the domain, or `item-not-found` where it has a `node`, since the server
///   has none (XEP-0030, section 3.1); one for items a result without items and with its `node` (section 4.1); and one of
///   the roster a roster without contacts (RFC 6121, section 2.1.4). An empty `node` counts as none;
/// - of type `set`: a session gets an empty result (RFC 3921, section 3), and so does `enable` or `disable`, after which the
///   session is sent copies, or no more (XEP-0280, sections 4 and 5); a query of the account's archive that is not to the
///   domain gets the entries of its page, one message each, and then the answer that ends the page, or the error by which
///   it is refused: `item-not-found` where its place is none of the archive's entries (XEP-0313, sections 4.1 to 4.3).
///
/// The `iq` counts as handled before all that, where the session's stanzas are counted (XEP-0198, section 4). A refusal, where
/// memory ran out, leaves all as it was: nothing is sent, nothing counts, and copies stay switched as they were.
pub fn on_iq(context: &mut ServerContext, iq: &Iq, told: &SessionInfo) -> Result<(), NoMemory>
    requires { Some told.now ≡ info_of told.now.number (server_state_of context.old).sessions }
    ensures ok { OnOk result (step_of context.new ≡ acted written_item (counting told.now (at_iq written_item iq.now told.now (server_state_of context.old))) (step_of context.old)) }
    ensures err { OnErr result (step_of context.new ≡ step_of context.old) }
{
    match request_of(context, iq, told)? {
        Some(request) => serve_session(context, &request, iq, told),
        None => {
            context.count(told);
            Ok(())
        }
    }
}
