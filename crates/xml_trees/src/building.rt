ghost use Rattle.std.specs.Prelude.{◌≡◌, [], ◌∷◌, ◌++◌, IfOk, OnOk, OnErr};
ghost use Rattle.xml_trees.specs.Trees.{element, no_nodes, child, text, with_attribute, with_nodes};
ghost use Rattle.xml_trees.specs.Views.{elem_view, node_view, nodes_view};

use crate::attributes::{Attr, Attrs};
use crate::elements::{Element, Node, Nodes};
use base_io::{NoMemory, Text};
use std::alloc::Global;

// Adds a node. Most elements that contain something contain one node: the first takes room for itself alone.
fn push_to(children: &mut Vec<Node>, node: Node) -> Result<(), NoMemory>
    ensures ok { OnOk result (children.new.items ≡ children.old.items ++ node ∷ []) }
    ensures err { OnErr result (children.new.items ≡ children.old.items) }
{
    if children.capacity() == 0 {
        children.reserve_exact(1)?;
    }
    children.push(node)?;
    Ok(())
}

impl Element {
    /// An element without attributes that contains nothing. It takes no memory.
    pub fn new(alloc: Global, ns: Text, name: Text) -> Element
        ensures { elem_view result ≡ element ns name [] no_nodes }
    {
        Element {
            ns,
            name,
            attrs: Attrs::new(alloc),
            children: Vec::new(alloc),
        }
    }

    /// An element with copies of a namespace and a name, without attributes, that contains nothing.
    pub fn from_strs(alloc: Global, ns: &str, name: &str) -> Result<Element, NoMemory>
        ensures { IfOk result (λ e. elem_view e ≡ element ns.now name.now [] no_nodes) }
    {
        let ns = Text::from_str(alloc, ns)?;
        let name = Text::from_str(alloc, name)?;
        Ok(Element::new(alloc, ns, name))
    }

    /// Adds an attribute behind the others. A refusal drops it and leaves the element as it was.
    pub fn push_attr(&mut self, attr: Attr) -> Result<(), NoMemory>
        ensures ok { OnOk result (elem_view self.new ≡ with_attribute (elem_view self.old) attr) }
        ensures err { OnErr result (elem_view self.new ≡ elem_view self.old) }
    {
        self.attrs.push(attr)?;
        Ok(())
    }

    /// Adds a node behind what the element contains. A refusal drops it and leaves the element as it was.
    pub fn push_node(&mut self, node: Node) -> Result<(), NoMemory>
        ensures ok { OnOk result (elem_view self.new ≡ with_nodes (elem_view self.old) (node_view node)) }
        ensures err { OnErr result (elem_view self.new ≡ elem_view self.old) }
    {
        push_to(&mut self.children, node)?;
        Ok(())
    }

    /// Adds an element behind what the element contains. A refusal drops it and leaves the element as it was.
    pub fn push_child(&mut self, element: Element) -> Result<(), NoMemory>
        ensures ok { OnOk result (elem_view self.new ≡ with_nodes (elem_view self.old) (child (elem_view element) no_nodes)) }
        ensures err { OnErr result (elem_view self.new ≡ elem_view self.old) }
    {
        self.push_node(Node::Child(element))?;
        Ok(())
    }

    /// Adds a text behind what the element contains. A refusal drops it and leaves the element as it was.
    pub fn push_text(&mut self, content: Text) -> Result<(), NoMemory>
        ensures ok { OnOk result (elem_view self.new ≡ with_nodes (elem_view self.old) (text content no_nodes)) }
        ensures err { OnErr result (elem_view self.new ≡ elem_view self.old) }
    {
        self.push_node(Node::Text(content))?;
        Ok(())
    }

    /// Adds nodes behind what the element contains, moved. A refusal drops them and leaves the element as it was.
    pub fn push_nodes(&mut self, nodes: Nodes) -> Result<(), NoMemory>
        ensures ok { OnOk result (elem_view self.new ≡ with_nodes (elem_view self.old) (nodes_view nodes.items)) }
        ensures err { OnErr result (elem_view self.new ≡ elem_view self.old) }
    {
        let mut items = nodes.into_items();
        self.children.append(&mut items)?;
        Ok(())
    }
}
