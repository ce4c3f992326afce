use crate::attributes::Attrs;
use base_io::{ListOf, Text};

// The namespace is a text of its own in each element, and its name is copied there. A tree leaves the stream that it came
// from: it is moved into queues and archives, and outlives the tags whose declarations it could borrow.

/// An element: its namespace, which is empty where it has none, its name without a prefix, its attributes, and what it
/// contains in order (XML 1.0, section 3). It need not keep the rule of a `Tree`. Contracts see it through `elem_view`.
///
/// What goes through an element, its drop included, calls itself once for each level, so the stack used grows with the
/// depth.
#[cycle(node)]
#[derive(Drop)]
pub struct Element {
    pub ns: Text,
    pub name: Text,
    pub attrs: Attrs,
    pub children: Vec<Node>,
}

/// What an element contains: an element, or a text.
#[cycle(node)]
#[derive(Drop)]
pub enum Node {
    Child(Element),
    Text(Text),
}

/// Nodes, in order.
pub type Nodes = ListOf<Node>;
