//! What an `iq` asks for (RFC 6120, section 8.2.3): ping, service discovery, roster, session, carbons and the archive.
ghost use Rattle.std.specs.Prelude.{◌≡◌, [], ◌∷◌, IfOk};
ghost use Rattle.srv_state.specs.Seen.{server_state_of};
ghost use Rattle.im_forwarding.specs.Queries;
ghost use Rattle.srv_handlers.specs.Requests;
ghost use Rattle.srv_handlers.specs.Requests.{asked_of, get_request, info_request, node_asked, request_for, request_of, set_request};
ghost use Rattle.xml_trees.specs.Readers.{elements_of};
ghost use Rattle.xml_trees.specs.Views.{elem_view};

use crate::request::Request;
use base_io::NoMemory;
use im_forwarding::{QueryFault, query_asked};
use im_jid::Jid;
use im_payload::{ARCHIVE, CARBONS, DISCO_INFO, DISCO_ITEMS, PINGS, ROSTER, SESSIONS, attr_text};
use im_stanza::{Condition, ErrorKind, Iq, IqKind, StanzaError};
use sm_live::SessionInfo;
use srv_state::ServerContext;
use std::alloc::Global;
use xml_trees::{Element, next_element};

fn bad_request() -> StanzaError
    ensures { result ≡ Requests.bad_request }
{
    StanzaError {
        kind: ErrorKind::Modify,
        condition: Condition::BadRequest,
    }
}

fn not_served() -> StanzaError
    ensures { result ≡ Requests.not_served }
{
    StanzaError {
        kind: ErrorKind::Cancel,
        condition: Condition::ServiceUnavailable,
    }
}

// The server has no nodes (XEP-0030, section 3.1).
fn no_such_node() -> StanzaError
    ensures { result ≡ Requests.no_such_node }
{
    StanzaError {
        kind: ErrorKind::Cancel,
        condition: Condition::ItemNotFound,
    }
}

// ---- what a request asks for

// A query of what the domain or the account is, or of what a node is.
fn info_request(element: &Element, at_domain: bool) -> Request
    ensures { result ≡ info_request at_domain (node_asked (elem_view element.now)) }
{
    let node = element.attr("", "node").unwrap_or("");
    if node.is_empty() {
        Request::Info { at_domain }
    } else {
        Request::Refused(no_such_node())
    }
}

// A query of the items of a node, or of the domain or the account.
fn items_request(alloc: Global, element: &Element) -> Result<Request, NoMemory>
    ensures { IfOk result (λ request. request ≡ Request.Items (node_asked (elem_view element.now))) }
{
    let node = attr_text(alloc, element, "node")?;
    Ok(Request::Items { node })
}

fn get_request(alloc: Global, element: &Element, at_domain: bool) -> Result<Request, NoMemory>
    ensures { IfOk result (λ request. request ≡ get_request at_domain (elem_view element.now)) }
{
    if element.is(PINGS, "ping") {
        Ok(Request::Ping)
    } else if element.is(DISCO_INFO, "query") {
        Ok(info_request(element, at_domain))
    } else if element.is(DISCO_ITEMS, "query") {
        items_request(alloc, element)
    } else if element.is(ROSTER, "query") {
        Ok(Request::Roster)
    } else {
        Ok(Request::Refused(not_served()))
    }
}

// A query of the archive.
fn query_request(alloc: Global, element: &Element) -> Result<Request, NoMemory>
    ensures { IfOk result (λ request. request ≡ Requests.query_request (Queries.query_asked (elem_view element.now))) }
{
    match query_asked(alloc, element) {
        Ok(query) => Ok(Request::Archive(query)),
        Err(QueryFault::Refused(error)) => Ok(Request::Refused(error)),
        Err(QueryFault::NoMemory) => Err(NoMemory),
    }
}

fn set_request(alloc: Global, element: &Element, at_domain: bool) -> Result<Request, NoMemory>
    ensures { IfOk result (λ request. request ≡ set_request at_domain (elem_view element.now)) }
{
    if element.is(SESSIONS, "session") {
        Ok(Request::Session)
    } else if element.is(CARBONS, "enable") {
        Ok(Request::Carbons { on: true })
    } else if element.is(CARBONS, "disable") {
        Ok(Request::Carbons { on: false })
    } else if element.is(ARCHIVE, "query") && !at_domain {
        query_request(alloc, element)
    } else {
        Ok(Request::Refused(not_served()))
    }
}

fn request_for(
    alloc: Global,
    kind: IqKind,
    element: &Element,
    at_domain: bool,
) -> Result<Request, NoMemory>
    ensures { IfOk result (λ request. request ≡ request_for kind at_domain (elem_view element.now)) }
{
    match kind {
        IqKind::Get => get_request(alloc, element, at_domain),
        _ => set_request(alloc, element, at_domain),
    }
}

// Whether a request is to the account or to the domain.
fn is_served_at(bare: &str, domain: &str, to: &Option<Jid>) -> bool
    ensures { result ≡ Requests.is_served_at bare.now domain.now to.now }
{
    match to {
        Some(to) => to.text() == bare || to.text() == domain,
        None => true,
    }
}

fn is_at_domain(domain: &str, to: &Option<Jid>) -> bool
    ensures { result ≡ Requests.is_at_domain domain.now to.now }
{
    match to {
        Some(to) => to.text() == domain,
        None => false,
    }
}

// What one element asks for.
fn asked_by(
    alloc: Global,
    bare: &str,
    domain: &str,
    iq: &Iq,
    element: &Element,
) -> Result<Request, NoMemory>
    ensures { IfOk result (λ request. request ≡ asked_of bare.now domain.now iq.now (elem_view element.now ∷ [])) }
{
    if is_served_at(bare, domain, &iq.to) {
        request_for(alloc, iq.kind, element, is_at_domain(domain, &iq.to))
    } else {
        Ok(Request::Refused(not_served()))
    }
}

// What an `iq` that asks for something asks for.
fn asked_of(alloc: Global, bare: &str, domain: &str, iq: &Iq) -> Result<Request, NoMemory>
    ensures { IfOk result (λ request. request ≡ asked_of bare.now domain.now iq.now (elements_of iq.now.payload)) }
{
    let Some((element, following)) = next_element(iq.payload.as_slice()) else {
        return Ok(Request::Refused(bad_request()));
    };
    if next_element(following).is_some() {
        return Ok(Request::Refused(bad_request()));
    }
    asked_by(alloc, bare, domain, iq, element)
}

/// What an `iq` asks for. `None` where it asks for nothing: it is a result or an error.
pub(crate) fn request_of(
    context: &ServerContext,
    iq: &Iq,
    told: &SessionInfo,
) -> Result<Option<Request>, NoMemory>
    ensures { IfOk result (λ request. request ≡ request_of iq.now told.now (server_state_of context.now)) }
{
    match iq.kind {
        IqKind::Result | IqKind::Error => Ok(None),
        _ => {
            let bare = context.bare_address(told.account)?;
            let asked = asked_of(context.alloc, bare.as_str(), context.domain.as_str(), iq)?;
            Ok(Some(asked))
        }
    }
}
