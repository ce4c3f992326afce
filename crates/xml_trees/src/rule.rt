//! The rule that each whole stanza keeps.
//!
//! Each whole stanza is walked once more by `keeps_rule`: an invariant on open elements would put that into the
//! parser's state.
ghost use Rattle.std.specs.Prelude.{◌≡◌, ◌↔◌, IsTrue};
ghost use Rattle.xml_trees.specs.Trees.{AreTidy, AreTidyAfter, IsTree, Nodes, is_text_first, joined};
ghost use Rattle.xml_trees.specs.Views.{elem_view, node_view, nodes_view};

use crate::attributes::are_in_order;
use crate::elements::{Element, Node};

impl Node {
    /// Whether the node is a text.
    pub fn is_text(&self) -> bool
        ensures { result ≡ is_text_first (node_view self.now) }
    {
        match self {
            Node::Child(_) => false,
            Node::Text(_) => true,
        }
    }
}

/// Whether an element keeps the rule of a tree. It takes no memory.
#[cycle(rule)]
pub(crate) fn keeps_rule(element: &Element) -> bool
    ensures { IsTrue result ↔ IsTree (elem_view element.now) }
{
    are_in_order(element.attrs.as_slice()) && are_tidy(&element.children)
}

#[cycle(rule)]
fn are_tidy(nodes: &Vec<Node>) -> bool
    ensures { IsTrue result ↔ AreTidy (nodes_view nodes.now.items) }
{
    let mut after_text = false;
    for node in nodes {
        if !is_tidy_after(after_text, node) {
            return false;
        }
        after_text = node.is_text();
    }
    true
}

#[cycle(rule)]
fn is_tidy_after(after_text: bool, node: &Node) -> bool
    ensures { (rest : Nodes) → AreTidyAfter after_text (joined (node_view node.now) rest) ↔ (IsTrue result × AreTidyAfter (is_text_first (node_view node.now)) rest) }
{
    match node {
        Node::Child(element) => keeps_rule(element),
        Node::Text(text) => !after_text && !text.as_str().is_empty(),
    }
}
