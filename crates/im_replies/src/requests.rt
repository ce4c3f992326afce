//! What a server answers to requests, and to messages and presences that it can't pass on (RFC 6120, sections 7, 8.2.3 and
//! 8.3.1).
ghost use Rattle.std.specs.Prelude.{◌≡◌, IfOk};
ghost use Rattle.im_extensions.specs.Bind.{bind_result_elem};
ghost use Rattle.im_replies.specs.Requests.{account_info_text, bounce_text, bound_text, empty_result_text, envelope_view, iq_error_text, items_text, presence_bounce_text, result_item, roster_text, server_info_text};
ghost use Rattle.xml_writer.specs.Items.{written_item};
ghost use Rattle.xml_trees.specs.Trees.{child, no_nodes};
ghost use Rattle.xml_trees.specs.Views.{elem_view, nodes_view};

use crate::spelling::{spelled, spelled_element};
use base_io::{Bytes, NoMemory};
use im_login::{
    account_info as account_info_tree, disco_items_tree, server_info as server_info_tree,
};
use im_payload::{BINDING, ROSTER, push_text_child};
use im_stanza::{
    IqKind, StanzaAttrs, StanzaError, bounce, iq_error, presence_bounce, stanza_element,
};
use std::alloc::Global;
use xml_trees::{Element, Node, Nodes};

/// How an answer to an `iq` is addressed (RFC 6120, section 8.2.3): from whom it is and to whom, each where that is to be
/// told, and the id of the request.
#[derive(Clone, Copy, Debug, PartialEq, Eq)]
pub struct Envelope<'a> {
    pub from: Option<&'a str>,
    pub to: Option<&'a str>,
    pub id: &'a str,
}

// An answer with this payload.
fn result(alloc: Global, envelope: &Envelope<'_>, payload: Nodes) -> Result<Bytes, NoMemory>
    ensures { IfOk result (λ b. b.items ≡ written_item (result_item (envelope_view envelope.now) (nodes_view payload.items))) }
{
    let attrs = StanzaAttrs {
        from: envelope.from,
        id: Some(envelope.id),
        to: envelope.to,
        kind: Some(IqKind::Result.text()),
        lang: None,
    };
    let element = stanza_element(alloc, "iq", &attrs, payload)?;
    spelled_element(alloc, element)
}

/// An answer whose payload is one element.
pub fn result_of(
    alloc: Global,
    envelope: &Envelope<'_>,
    payload: Element,
) -> Result<Bytes, NoMemory>
    ensures { IfOk result (λ b. b.items ≡ written_item (result_item (envelope_view envelope.now) (child (elem_view payload) no_nodes))) }
{
    let mut nodes = Nodes::new(alloc);
    nodes.push(Node::Child(payload))?;
    result(alloc, envelope, nodes)
}

/// The answer to a ping, to a wish for a session and to a switch of carbons: that it is done.
pub fn empty_result(alloc: Global, envelope: &Envelope<'_>) -> Result<Bytes, NoMemory>
    ensures { IfOk result (λ b. b.items ≡ empty_result_text (envelope_view envelope.now)) }
{
    result(alloc, envelope, Nodes::new(alloc))
}

/// A roster without contacts (RFC 6121, section 2.1.4).
pub fn roster(alloc: Global, envelope: &Envelope<'_>) -> Result<Bytes, NoMemory>
    ensures { IfOk result (λ b. b.items ≡ roster_text (envelope_view envelope.now)) }
{
    let query = Element::from_strs(alloc, ROSTER, "query")?;
    result_of(alloc, envelope, query)
}

/// What the server is and can do (XEP-0030, section 3.1).
pub fn server_info(alloc: Global, envelope: &Envelope<'_>) -> Result<Bytes, NoMemory>
    ensures { IfOk result (λ b. b.items ≡ server_info_text (envelope_view envelope.now)) }
{
    let tree = server_info_tree(alloc)?;
    result_of(alloc, envelope, tree.into_element())
}

/// What an account is and can do (XEP-0030, section 3.1).
pub fn account_info(alloc: Global, envelope: &Envelope<'_>) -> Result<Bytes, NoMemory>
    ensures { IfOk result (λ b. b.items ≡ account_info_text (envelope_view envelope.now)) }
{
    let tree = account_info_tree(alloc)?;
    result_of(alloc, envelope, tree.into_element())
}

/// That there are no items of this node, which is left out where it is empty (XEP-0030, section 4.1).
pub fn items(alloc: Global, envelope: &Envelope<'_>, node: &str) -> Result<Bytes, NoMemory>
    ensures { IfOk result (λ b. b.items ≡ items_text node.now (envelope_view envelope.now)) }
{
    let tree = disco_items_tree(alloc, node)?;
    result_of(alloc, envelope, tree.into_element())
}

// The element that tells an address.
fn bound_element(alloc: Global, jid: &str) -> Result<Element, NoMemory>
    ensures { IfOk result (λ e. elem_view e ≡ bind_result_elem (record { jid = jid.now })) }
{
    let mut bind = Element::from_strs(alloc, BINDING, "bind")?;
    push_text_child(alloc, &mut bind, BINDING, "jid", jid)?;
    Ok(bind)
}

/// The answer to the binding of a resource: the full address that the client has from now on (RFC 6120, section 7.6).
pub fn bound(alloc: Global, id: &str, jid: &str) -> Result<Bytes, NoMemory>
    ensures { IfOk result (λ b. b.items ≡ bound_text id.now jid.now) }
{
    let bind = bound_element(alloc, jid)?;
    let envelope = Envelope {
        from: None,
        to: None,
        id,
    };
    result_of(alloc, &envelope, bind)
}

/// The answer to a request that is refused (RFC 6120, section 8.3).
#[tactic(auto, using(crate::proofs::AnswerLaws::iq_error_stays))]
pub fn refusal(
    alloc: Global,
    envelope: &Envelope<'_>,
    error: &StanzaError,
) -> Result<Bytes, NoMemory>
    ensures { IfOk result (λ b. b.items ≡ iq_error_text (envelope_view envelope.now) error.now) }
{
    let tree = iq_error(alloc, envelope.from, envelope.to, envelope.id, error)?;
    spelled(alloc, &tree)
}

/// A message that comes back: `from` is where it was to go, which may be no address, and `id` its id (RFC 6120, section
/// 8.3.1). The id is left out where it is empty.
#[tactic(auto, using(crate::proofs::AnswerLaws::bounce_stays))]
pub fn bounced(alloc: Global, from: &str, id: &str, error: &StanzaError) -> Result<Bytes, NoMemory>
    ensures { IfOk result (λ b. b.items ≡ bounce_text from.now id.now error.now) }
{
    let tree = bounce(alloc, from, id, error)?;
    spelled(alloc, &tree)
}

/// A presence that comes back: `from` is the address that it was to, and `id` its id (RFC 6120, section 8.3.1). The id is
/// left out where it is empty.
#[tactic(auto, using(crate::proofs::AnswerLaws::presence_bounce_stays))]
pub fn bounced_presence(
    alloc: Global,
    from: &str,
    id: &str,
    error: &StanzaError,
) -> Result<Bytes, NoMemory>
    ensures { IfOk result (λ b. b.items ≡ presence_bounce_text from.now id.now error.now) }
{
    let tree = presence_bounce(alloc, from, id, error)?;
    spelled(alloc, &tree)
}
