//! Trees and elements as bytes of their own.
ghost use Rattle.std.specs.Prelude.{◌≡◌, IfOk};
ghost use Rattle.xml_trees.specs.Views.{elem_view};
ghost use Rattle.xml_writer.specs.Canon.{canon};

use base_io::{Bytes, NoMemory};
use im_stanza::CLIENT;
use std::alloc::Global;
use xml_trees::{Element, Node, Nodes, Tree};
use xml_writer::{write, write_nodes};

/// A tree as it is written.
pub(crate) fn spelled(alloc: Global, tree: &Tree) -> Result<Bytes, NoMemory>
    ensures { IfOk result (λ b. b.items ≡ canon tree.now) }
{
    let mut bytes = Bytes::new(alloc);
    write(tree, &mut bytes)?;
    Ok(bytes)
}

/// An element as it is written, which need not keep the rule of a tree.
#[tactic(auto, using(crate::proofs::SpellingSteps::one_written))]
pub(crate) fn spelled_element(alloc: Global, element: Element) -> Result<Bytes, NoMemory>
    ensures { IfOk result (λ b. b.items ≡ canon (elem_view element)) }
{
    let mut nodes = Nodes::new(alloc);
    nodes.push(Node::Child(element))?;
    let mut bytes = Bytes::new(alloc);
    write_nodes(&mut bytes, CLIENT, nodes.as_slice())?;
    Ok(bytes)
}
