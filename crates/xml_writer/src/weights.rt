//! How much room a tree takes at most as it is written, told from the lengths of its parts: none of their bytes is looked
//! at. A weight past 2^64 - 1 is answered as that.
ghost use Rattle.std.specs.Prelude.{◌≡◌, ◌*◌, ◌-◌, ◌^◌, min};
ghost use Rattle.xml_writer.specs.Weight;
ghost use Rattle.xml_writer.specs.Weight.{weight};
ghost use Rattle.xml_trees.specs.Views.{elem_view, node_view, nodes_view};

use xml_trees::{Attr, Element, Node};

// The most bytes that a byte of a tree is written in: `&apos;`.
const LONGEST: usize = 6;

// The weight of an attribute: its bytes, and ten for what stands around them.
fn attribute_weight(attr: &Attr) -> usize
    ensures { result ≡ min (Weight.attribute_weight attr.now) (2 ^ 64 - 1) }
{
    let name = attr.name.as_str().len();
    let value = attr.value.as_str().len();
    let ns = attr.ns.as_str().len();
    ns.saturating_add(name)
        .saturating_add(value)
        .saturating_add(10)
}

fn attributes_weight(attrs: &[Attr]) -> usize
    ensures { result ≡ min (Weight.attributes_weight attrs.now) (2 ^ 64 - 1) }
{
    let mut all = 0usize;
    for attr in attrs {
        all = all.saturating_add(attribute_weight(attr));
    }
    all
}

// The weight of an element: its own bytes and ten, and what its attributes and its nodes weigh.
#[cycle(weight)]
fn element_weight(element: &Element) -> usize
    ensures { result ≡ min (weight (elem_view element.now)) (2 ^ 64 - 1) }
{
    let ns = element.ns.as_str().len();
    let name = element.name.as_str().len();
    let attrs = attributes_weight(element.attrs.as_slice());
    ns.saturating_add(name)
        .saturating_add(10)
        .saturating_add(attrs)
        .saturating_add(nodes_weight(&element.children))
}

#[cycle(weight)]
fn nodes_weight(nodes: &Vec<Node>) -> usize
    ensures { result ≡ min (Weight.nodes_weight (nodes_view nodes.now.items)) (2 ^ 64 - 1) }
{
    let mut all = 0usize;
    for node in nodes {
        all = all.saturating_add(node_weight(node));
    }
    all
}

#[cycle(weight)]
fn node_weight(node: &Node) -> usize
    ensures { result ≡ min (Weight.nodes_weight (node_view node.now)) (2 ^ 64 - 1) }
{
    match node {
        Node::Child(element) => element_weight(element),
        Node::Text(text) => text.as_str().len(),
    }
}

/// How many bytes an element is written in at most, whatever default namespace is in force.
pub(crate) fn element_room(element: &Element) -> usize
    ensures { result ≡ min (6 * weight (elem_view element.now)) (2 ^ 64 - 1) }
{
    element_weight(element).saturating_mul(LONGEST)
}
