//! Stanzas are written as trees (RFC 6120, section 8.1).
ghost use Rattle.std.specs.Prelude.{◌≡◌, Ok, IfOk, FitsSigned};
ghost use Rattle.std.specs.Int.{w8};
ghost use Rattle.std.specs.Option.{option_copied};
ghost use Rattle.xml_trees.specs.Tidied.{tidied, tidied_nodes};
ghost use Rattle.xml_trees.specs.Views.{elem_view, nodes_view};
ghost use Rattle.im_stanza.specs.Readings.{stanza_of};
ghost use Rattle.im_stanza.specs.Written.{IsNormal, iq_elem, message_elem, presence_elem, priority_nodes};

use crate::elements::{StanzaAttrs, stanza_element, unless_empty};
use crate::names::CLIENT;
use crate::stanzas::{Iq, Message, Presence, Stanza};
use base_io::{NoMemory, Text};
use im_jid::Jid;
use std::alloc::Global;
use xml_trees::{Element, Node, Nodes, Tree, copy_nodes};

/// A message as a tree. `type` is always written, `normal` included; `id` and `xml:lang` are where they aren't empty. The
/// payload is copied, and stands as it is where it is tidy. `written_stanzas_are_read_back` says that the tree is read
/// back as the message.
#[tactic(auto, using(crate::proofs::WrittenLaws::message_tidied))]
pub fn message_tree(alloc: Global, m: &Message) -> Result<Tree, NoMemory>
    ensures tree { IfOk result (λ tree. tree ≡ tidied (message_elem m.now)) }
    ensures read { IfOk result (λ tree. stanza_of tree ≡ Ok (Stanza.Message (record m.now { payload = tidied_nodes m.now.payload }))) }
{
    let payload = copy_nodes(alloc, m.payload.as_slice())?;
    Tree::of(alloc, message_element(alloc, m, payload)?)
}

/// The message's element with a payload that is equal to its own.
pub(crate) fn message_element(
    alloc: Global,
    m: &Message,
    payload: Nodes,
) -> Result<Element, NoMemory>
    ensures element { IfOk result (λ e. elem_view e ≡ message_elem (record m.now { payload = nodes_view payload.items })) }
    ensures from { IsNormal m.now.from }
    ensures to { IsNormal m.now.to }
{
    stanza_element(
        alloc,
        "message",
        &StanzaAttrs {
            from: address_text(&m.from),
            id: unless_empty(m.id.as_str()),
            to: address_text(&m.to),
            kind: Some(m.kind.text()),
            lang: unless_empty(m.lang.as_str()),
        },
        payload,
    )
}

/// A presence as a tree. Without a `type` its sender is available; `Other` is written as `probe`, which changes nothing
/// with its reader. An empty `id` and a priority of 0 are left out.
#[tactic(auto, using(crate::proofs::WrittenLaws::presence_tidied))]
pub fn presence_tree(alloc: Global, p: &Presence) -> Result<Tree, NoMemory>
    ensures tree { IfOk result (λ tree. tree ≡ tidied (presence_elem p.now)) }
    ensures read { IfOk result (λ tree. stanza_of tree ≡ Ok (Stanza.Presence p.now)) }
{
    Tree::of(alloc, presence_element(alloc, p)?)
}

fn presence_element(alloc: Global, p: &Presence) -> Result<Element, NoMemory>
    ensures element { IfOk result (λ e. elem_view e ≡ presence_elem p.now) }
    ensures from { IsNormal p.now.from }
    ensures to { IsNormal p.now.to }
    ensures range { FitsSigned w8 p.now.priority }
{
    let attrs = StanzaAttrs {
        from: address_text(&p.from),
        id: unless_empty(p.id.as_str()),
        to: address_text(&p.to),
        kind: p.kind.text(),
        lang: None,
    };
    let payload = priority_nodes(alloc, p.priority)?;
    stanza_element(alloc, "presence", &attrs, payload)
}

/// An `iq` as a tree. `id` and `type` are always written. The payload is copied, and stands as it is where it is tidy.
#[tactic(auto, using(crate::proofs::WrittenLaws::iq_tidied))]
pub fn iq_tree(alloc: Global, q: &Iq) -> Result<Tree, NoMemory>
    ensures tree { IfOk result (λ tree. tree ≡ tidied (iq_elem q.now)) }
    ensures read { IfOk result (λ tree. stanza_of tree ≡ Ok (Stanza.Iq (record q.now { payload = tidied_nodes q.now.payload }))) }
{
    let payload = copy_nodes(alloc, q.payload.as_slice())?;
    Tree::of(alloc, iq_element(alloc, q, payload)?)
}

/// The element of an `iq` with a payload that is equal to its own.
pub(crate) fn iq_element(alloc: Global, q: &Iq, payload: Nodes) -> Result<Element, NoMemory>
    ensures element { IfOk result (λ e. elem_view e ≡ iq_elem (record q.now { payload = nodes_view payload.items })) }
    ensures from { IsNormal q.now.from }
    ensures to { IsNormal q.now.to }
{
    stanza_element(
        alloc,
        "iq",
        &StanzaAttrs {
            from: address_text(&q.from),
            id: Some(q.id.as_str()),
            to: address_text(&q.to),
            kind: Some(q.kind.text()),
            lang: None,
        },
        payload,
    )
}

// The text of an address, where there is one.
fn address_text(address: &Option<Jid>) -> Option<&str>
    ensures text { option_copied result ≡ address.now }
    ensures normal { IsNormal address.now }
{
    match address {
        None => None,
        Some(jid) => Some(jid.text()),
    }
}

// The child `priority`, where the priority isn't 0.
fn priority_nodes(alloc: Global, priority: i8) -> Result<Nodes, NoMemory>
    ensures { IfOk result (λ nodes. nodes_view nodes.items ≡ priority_nodes priority) }
{
    let mut nodes = Nodes::new(alloc);
    if priority != 0 {
        let mut child = Element::from_strs(alloc, CLIENT, "priority")?;
        child.push_text(Text::from(priority.to_string(alloc)?))?;
        nodes.push(Node::Child(child))?;
    }
    Ok(nodes)
}
