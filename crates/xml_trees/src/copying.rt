ghost use Rattle.std.specs.Prelude.{◌≡◌, List, IfOk};
ghost use Rattle.xml_trees.specs.Views.{elem_view, node_view, nodes_view};

use crate::elements::{Element, Node, Nodes};
use base_io::{Copied, NoMemory};
use std::alloc::Global;

#[cycle(copy)]
fn copied_element(alloc: Global, element: &Element) -> Result<Element, NoMemory>
    ensures { IfOk result (λ copy. elem_view copy ≡ elem_view element.now) }
{
    let ns = element.ns.copied(alloc)?;
    let name = element.name.copied(alloc)?;
    let attrs = element.attrs.copy(alloc)?;
    let children = copied_children(alloc, &element.children)?;
    Ok(Element {
        ns,
        name,
        attrs,
        children,
    })
}

#[cycle(copy)]
fn copied_children(alloc: Global, children: &Vec<Node>) -> Result<Vec<Node>, NoMemory>
    ensures { IfOk result (λ copy. nodes_view copy.items ≡ nodes_view children.now.items) }
{
    let mut copies = Vec::with_capacity(alloc, children.len())?;
    for node in children {
        copies.push(copied_node(alloc, node)?)?;
    }
    Ok(copies)
}

#[cycle(copy)]
fn copied_node(alloc: Global, node: &Node) -> Result<Node, NoMemory>
    ensures { IfOk result (λ copy. node_view copy ≡ node_view node.now) }
{
    match node {
        Node::Child(element) => Ok(Node::Child(copied_element(alloc, element)?)),
        Node::Text(text) => Ok(Node::Text(text.copied(alloc)?)),
    }
}

impl Element {
    /// An equal element, in memory of its own.
    pub fn copy(&self, alloc: Global) -> Result<Element, NoMemory>
        ensures { IfOk result (λ copy. elem_view copy ≡ elem_view self.now) }
    {
        copied_element(alloc, self)
    }
}

impl Node {
    /// An equal node, in memory of its own.
    pub fn copy(&self, alloc: Global) -> Result<Node, NoMemory>
        ensures { IfOk result (λ copy. node_view copy ≡ node_view self.now) }
    {
        copied_node(alloc, self)
    }
}

/// Equal nodes, in memory of their own.
pub fn copy_nodes(alloc: Global, nodes: &[Node]) -> Result<Nodes, NoMemory>
    ensures { IfOk result (λ copy. nodes_view copy.items ≡ nodes_view nodes.now) }
{
    let mut copies = Nodes::new(alloc);
    copies.reserve(nodes.len())?;
    for node in nodes {
        copies.push(node.copy(alloc)?)?;
    }
    Ok(copies)
}
