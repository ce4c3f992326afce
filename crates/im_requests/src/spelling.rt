//! Trees and elements as bytes of their own.
ghost use Rattle.std.specs.Prelude.{◌≡◌, IfOk};
ghost use Rattle.im_requests.specs.Sessions.{setting_elem, setting_item};
ghost use Rattle.xml_trees.specs.Views.{elem_view, nodes_view};
ghost use Rattle.xml_writer.specs.Canon.{canon};
ghost use Rattle.xml_writer.specs.Items.{written_item};

use base_io::{Bytes, NoMemory};
use im_stanza::{CLIENT, IqKind, StanzaAttrs, stanza_element};
use std::alloc::Global;
use xml_trees::{Element, Node, Nodes, Tree};
use xml_writer::{write, write_nodes};

/// A tree as it is written.
pub(crate) fn spelled(alloc: Global, tree: &Tree) -> Result<Bytes, NoMemory>
    ensures { IfOk result (λ b. b.items ≡ canon tree.now) }
{
    let mut bytes = Bytes::new(alloc);
    write(tree, &mut bytes)?;
    Ok(bytes)
}

/// An element as it is written, which need not keep the rule of a tree.
#[tactic(auto, using(im_replies::proofs::SpellingSteps::one_written))]
pub(crate) fn spelled_element(alloc: Global, element: Element) -> Result<Bytes, NoMemory>
    ensures { IfOk result (λ b. b.items ≡ canon (elem_view element)) }
{
    let mut nodes = Nodes::new(alloc);
    nodes.push(Node::Child(element))?;
    let mut bytes = Bytes::new(alloc);
    write_nodes(&mut bytes, CLIENT, nodes.as_slice())?;
    Ok(bytes)
}

// An `iq` that sets something, with this payload.
fn setting_of(alloc: Global, id: &str, payload: Nodes) -> Result<Bytes, NoMemory>
    ensures { IfOk result (λ b. b.items ≡ canon (setting_elem id.now (nodes_view payload.items))) }
{
    let attrs = StanzaAttrs {
        from: None,
        id: Some(id),
        to: None,
        kind: Some(IqKind::Set.text()),
        lang: None,
    };
    let element = stanza_element(alloc, "iq", &attrs, payload)?;
    spelled_element(alloc, element)
}

/// An `iq` that sets something by one element.
pub(crate) fn setting(alloc: Global, id: &str, payload: Element) -> Result<Bytes, NoMemory>
    ensures { IfOk result (λ b. b.items ≡ written_item (setting_item id.now (elem_view payload))) }
{
    let mut nodes = Nodes::new(alloc);
    nodes.push(Node::Child(payload))?;
    setting_of(alloc, id, nodes)
}
