ghost use Rattle.std.specs.Prelude.{◌≡◌, ◌<◌, ◌≤◌, ◌↔◌, [], ◌∷◌, length, IsTrue, IsNone, IfNone, IfOk, IfSome};
ghost use Rattle.std.specs.Option.{option_copied, option_map};
ghost use Rattle.xml_trees.specs.Attributes.{found, has_name};
ghost use Rattle.xml_trees.specs.Readers.{attr_of, child_of, elements_of, first_named, is_named, text_count, text_of};
ghost use Rattle.xml_trees.specs.Trees.{nodes_of, namespace_of, name_of};
ghost use Rattle.xml_trees.specs.Views.{elem_view, nodes_view};

use crate::attributes::Attr;
use crate::elements::{Element, Node};
use base_io::{NoMemory, Text};
use std::alloc::Global;

impl Attr {
    /// Whether the attribute has this namespace and name.
    pub fn is(&self, ns: &str, name: &str) -> bool
        ensures value { result ≡ has_name ns.now name.now self.now }
        ensures named { IsTrue result ↔ ((self.now.ns ≡ ns.now) × (self.now.name ≡ name.now)) }
    {
        self.ns.as_str() == ns && self.name.as_str() == name
    }
}

impl Element {
    /// Whether the element has this namespace and name.
    pub fn is(&self, ns: &str, name: &str) -> bool
        ensures value { result ≡ is_named ns.now name.now (elem_view self.now) }
        ensures named { IsTrue result ↔ ((namespace_of (elem_view self.now) ≡ ns.now) × (name_of (elem_view self.now) ≡ name.now)) }
    {
        self.name.as_str() == name && self.ns.as_str() == ns
    }

    /// The value of the first attribute with this namespace, which is empty for an attribute without one, and name.
    /// `None` where there is no such attribute.
    pub fn attr(&self, ns: &str, name: &str) -> Option<&str>
        ensures { option_copied result ≡ attr_of ns.now name.now (elem_view self.now) }
    {
        match find_attr(self.attrs.as_slice(), ns, name) {
            Some(attr) => Some(attr.value.as_str()),
            None => None,
        }
    }

    /// The first child element of this namespace and name. `None` where there is none.
    pub fn child(&self, ns: &str, name: &str) -> Option<&Element>
        ensures { option_map elem_view (option_copied result) ≡ child_of ns.now name.now (elem_view self.now) }
    {
        find_child(&self.children, ns, name)
    }

    /// The texts directly in the element, one behind the other. It takes memory for them.
    pub fn text(&self, alloc: Global) -> Result<Text, NoMemory>
        ensures { IfOk result (λ t. t ≡ text_of (nodes_of (elem_view self.now))) }
    {
        text_in(alloc, &self.children)
    }

    /// The text directly in the element where it has at most one, without a copy: empty where it has none. `None` where
    /// it has two or more.
    pub fn only_text(&self) -> Option<&str>
        ensures text { IfSome result (λ t. t.now ≡ text_of (nodes_of (elem_view self.now))) }
        ensures more { IsNone result ↔ (2 ≤ text_count (nodes_of (elem_view self.now))) }
    {
        only_text_in(&self.children)
    }
}

/// The first attribute with this namespace and name. `None` where there is none.
pub fn find_attr<'a>(attrs: &'a [Attr], ns: &str, name: &str) -> Option<&'a Attr>
    ensures { option_copied result ≡ found ns.now name.now attrs.now }
{
    attrs.iter().find(|a| a.is(ns, name))
}

/// The first element of this namespace and name among nodes. `None` where there is none.
pub fn find_child<'a>(nodes: &'a [Node], ns: &str, name: &str) -> Option<&'a Element>
    ensures { option_map elem_view (option_copied result) ≡ first_named ns.now name.now (nodes_view nodes.now) }
{
    for node in nodes {
        if let Node::Child(element) = node
            && element.is(ns, name)
        {
            return Some(element);
        }
    }
    None
}

/// The first element among nodes, and the nodes behind it. `None` where there is no element. Called again on the nodes
/// behind, it goes over the elements in order.
pub fn next_element(nodes: &[Node]) -> Option<(&Element, &[Node])>
    ensures some { IfSome result (λ x. elements_of (nodes_view nodes.now) ≡ elem_view x.0.now ∷ elements_of (nodes_view x.1.now)) }
    ensures shorter { IfSome result (λ x. length x.1.now < length nodes.now) }
    ensures none { IfNone result (elements_of (nodes_view nodes.now) ≡ []) }
{
    for (i, node) in nodes.iter().enumerate() {
        if let Node::Child(element) = node {
            return Some((element, &nodes[i + 1..]));
        }
    }
    None
}

/// The texts directly among nodes, one behind the other. It takes memory for them.
pub fn text_in(alloc: Global, nodes: &[Node]) -> Result<Text, NoMemory>
    ensures { IfOk result (λ t. t ≡ text_of (nodes_view nodes.now)) }
{
    let mut all = String::new(alloc);
    for node in nodes {
        if let Node::Text(text) = node {
            all.push_str(text.as_str())?;
        }
    }
    Ok(Text::from(all))
}

/// The text directly among nodes where there is at most one, without a copy: empty where there is none. `None` where
/// there are two or more.
pub fn only_text_in(nodes: &[Node]) -> Option<&str>
    ensures text { IfSome result (λ t. t.now ≡ text_of (nodes_view nodes.now)) }
    ensures more { IsNone result ↔ (2 ≤ text_count (nodes_view nodes.now)) }
{
    let mut only = None;
    for node in nodes {
        if let Node::Text(text) = node {
            if only.is_some() {
                return None;
            }
            only = Some(text.as_str());
        }
    }
    match only {
        Some(text) => Some(text),
        None => Some(""),
    }
}
