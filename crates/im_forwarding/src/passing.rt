//! Messages are passed on to the sessions of an account (RFC 6120, section 8.1.2.1; RFC 6121, section 8; XEP-0359).
ghost use Rattle.std.specs.Prelude.{◌≡◌, not, ◌++◌, IfOk, OnOk};
ghost use Rattle.im_forwarding.specs.Parts.{kept_text, says_nothing};
ghost use Rattle.im_forwarding.specs.Passed.{addressed_view, id_node, passed_elem, passed_nodes, passed_text};
ghost use Rattle.im_messages.specs.Ids.{without_ids};
ghost use Rattle.im_stanza.specs.Kinds.{message_type};
ghost use Rattle.im_stanza.specs.Names.{client_ns};
ghost use Rattle.im_stanza.specs.Written.{message_elem};
ghost use Rattle.xml_trees.specs.Trees.{no_nodes};
ghost use Rattle.xml_trees.specs.Views.{elem_view, node_view, nodes_view};
ghost use Rattle.xml_writer.specs.Canon.{has_nothing, written, written_nodes};

use crate::writing::{close_message, open_element, unless_empty, write_element};
use base_io::{Bytes, NoMemory, Text};
use im_extensions::{StanzaId, is_given_by};
use im_stanza::{CLIENT, Message, StanzaAttrs, stanza_element};
use mam_archive::id_of_number;
use std::alloc::Global;
use std::slice;
use xml_trees::{Element, Node, Nodes};
use xml_writer::write_nodes;

/// A message of a session with the addresses that it goes on with, whatever it came with: it is from the full address of
/// the session (RFC 6120, section 8.1.2.1), and one that came without `to` is to the bare address of its sender (RFC
/// 6120, section 10.3.1).
#[derive(Drop)]
pub struct Addressed<'a> {
    pub message: &'a Message,
    pub from: &'a str,
    pub to: &'a str,
}

/// The bare address of an account, and the number under which its archive has a message, where it has it.
#[derive(Clone, Copy, Debug, PartialEq, Eq)]
pub struct Filed<'a> {
    pub by: &'a str,
    pub number: Option<u64>,
}

// Whether something is written of a node: it is no id that a client may take for one of the account, and no empty text.
fn says_something(alloc: Global, node: &Node, by: &str) -> Result<bool, NoMemory>
    ensures { IfOk result (λ says. says ≡ not (says_nothing (without_ids by.now (node_view node.now)))) }
{
    match node {
        Node::Child(element) => Ok(!is_given_by(alloc, element, by)?),
        Node::Text(text) => Ok(!text.as_str().is_empty()),
    }
}

// Whether nothing is written of nodes.
#[tactic(auto, using(crate::proofs::KeptNodes::kept_says))]
fn says_nothing(alloc: Global, nodes: &[Node], by: &str) -> Result<bool, NoMemory>
    ensures { IfOk result (λ nothing. nothing ≡ says_nothing (without_ids by.now (nodes_view nodes.now))) }
{
    for node in nodes {
        if says_something(alloc, node, by)? {
            return Ok(false);
        }
    }
    Ok(true)
}

// Whether a message with this payload has nothing inside.
fn has_nothing(alloc: Global, payload: &[Node], filed: &Filed<'_>) -> Result<bool, NoMemory>
    ensures { IfOk result (λ nothing. nothing ≡ has_nothing (passed_nodes filed.now.by.now filed.now.number (nodes_view payload.now))) }
{
    if filed.number.is_some() {
        return Ok(false);
    }
    says_nothing(alloc, payload, filed.by)
}

// Writes a node that no client may take for an id of the account.
fn write_kept_node(alloc: Global, out: &mut Bytes, node: &Node, by: &str) -> Result<(), NoMemory>
    ensures { OnOk result (out.new.items ≡ out.old.items ++ kept_text by.now (node_view node.now)) }
{
    if let Node::Child(element) = node
        && is_given_by(alloc, element, by)?
    {
        return Ok(());
    }
    write_nodes(out, CLIENT, slice::from_ref(node))
}

// Writes the nodes of a payload but for the ids that a client may take for ones of the account. None of them is copied.
#[tactic(auto, using(crate::proofs::KeptNodes::kept_text_joined))]
fn write_kept(alloc: Global, out: &mut Bytes, payload: &[Node], by: &str) -> Result<(), NoMemory>
    ensures { OnOk result (out.new.items ≡ out.old.items ++ kept_text by.now (nodes_view payload.now)) }
{
    for node in payload {
        write_kept_node(alloc, out, node, by)?;
    }
    Ok(())
}

// Writes the id that the account's archive gave, where it has the message.
fn write_id(alloc: Global, out: &mut Bytes, filed: &Filed<'_>) -> Result<(), NoMemory>
    ensures { OnOk result (out.new.items ≡ out.old.items ++ written_nodes client_ns (id_node filed.now.by.now filed.now.number)) }
{
    let Some(number) = filed.number else {
        return Ok(());
    };
    let id = StanzaId {
        id: id_of_number(alloc, number)?,
        by: Text::from_str(alloc, filed.by)?,
    };
    let tree = id.tree(alloc)?;
    write_element(alloc, out, CLIENT, tree.into_element())
}

// What a message contains.
fn payload_of(message: &Message) -> &[Node]
    ensures { nodes_view result.now ≡ message.now.payload }
{
    message.payload.as_slice()
}

/// The type that a message is written with.
pub(crate) fn type_of(message: &Message) -> &'static str
    ensures { result.now ≡ message_type message.now.kind }
{
    message.kind.text()
}

// The message without what it contains.
fn passed_head(alloc: Global, message: &Addressed<'_>) -> Result<Element, NoMemory>
    ensures { IfOk result (λ e. elem_view e ≡ message_elem (record (addressed_view message.now) { payload = no_nodes })) }
{
    let m = message.message;
    let given = StanzaAttrs {
        from: Some(message.from),
        id: unless_empty(m.id.as_str()),
        to: Some(message.to),
        kind: Some(m.kind.text()),
        lang: unless_empty(m.lang.as_str()),
    };
    stanza_element(alloc, "message", &given, Nodes::new(alloc))
}

/// Writes a message as it is passed on, where a default namespace is in force. A refusal leaves bytes of which a part may
/// be written.
pub(crate) fn write_passed(
    alloc: Global,
    out: &mut Bytes,
    default: &str,
    message: &Addressed<'_>,
    filed: &Filed<'_>,
) -> Result<(), NoMemory>
    ensures { OnOk result (out.new.items ≡ out.old.items ++ written default.now (passed_elem filed.now.by.now filed.now.number (addressed_view message.now))) }
{
    let payload = payload_of(message.message);
    let nothing = has_nothing(alloc, payload, filed)?;
    let head = passed_head(alloc, message)?;
    if nothing {
        return write_element(alloc, out, default, head);
    }
    open_element(out, default, &head)?;
    write_kept(alloc, out, payload, filed.by)?;
    write_id(alloc, out, filed)?;
    close_message(out)
}

/// A message as all sessions of an account get it: from and to the addresses that it goes on with; without any
/// `stanza-id` that somebody else gave in the account's name, however that is spelled (XEP-0359, section 5); and, where
/// the account's archive has it, with the id of its entry after all else (XEP-0359, section 3.1). No tree and no text of
/// the payload is copied.
pub fn passed(alloc: Global, message: &Addressed<'_>, filed: &Filed<'_>) -> Result<Bytes, NoMemory>
    ensures { IfOk result (λ b. b.items ≡ passed_text filed.now.by.now filed.now.number (addressed_view message.now)) }
{
    let mut out = Bytes::new(alloc);
    write_passed(alloc, &mut out, CLIENT, message, filed)?;
    Ok(out)
}
