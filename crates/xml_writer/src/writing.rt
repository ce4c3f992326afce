//! Elements, headers and footers as they are written (RFC 6120, section 4).
//!
//! A tree is written in two walks: one for the length (`tag_lengths`) or for a bound of it (`weights`), and, once all
//! room is reserved, one that writes and so has no refusal (`tag_writing`). Each call is given the default namespace in
//! force; what it declares holds only inside. A text and a value go by runs: the longest prefix without a byte to
//! escape, then the escape.
//!
//! What an end puts is one type of definitions (`ItemOut` in `xml_writer`: a header, an element or a footer). The
//! rows of both cores speak of items, and the code's clauses of bytes.
ghost use Rattle.std.specs.Prelude.{◌≡◌, ◌+◌, ◌-◌, ◌<◌, ◌≤◌, ◌^◌, ◌++◌, length, min, OnErr, OnOk};
ghost use Rattle.xml_writer.specs.Canon;
ghost use Rattle.xml_writer.specs.Canon.{canon, written, written_footer, written_given, written_header, written_inside, written_nodes};
ghost use Rattle.xml_trees.specs.Views.{elem_view, node_view, nodes_view};

use crate::tag_lengths::{assignment_len, end_len, start_len};
use crate::tag_writing::{default_inside, put_assignment, put_end, put_start};
use crate::weights::element_room;
use base_io::{Bytes, NoMemory, Text};
use xml_names::Header;
use xml_tokens::{append_text_reserved, spelled_text_len};
use xml_trees::{Element, Node, Tree};

/// The content namespace of a header (RFC 6120, section 4.8.2), the default in force at the top.
const CLIENT_NAMESPACE: &str = "jabber:client";

// What the written header ends with.
const HEADER_END: &[u8] =
    b" xmlns='jabber:client' xmlns:stream='http://etherx.jabber.org/streams'>";

// Adds an element, where a default namespace is in force.
#[cycle(put)]
fn put_element(out: &mut Bytes, default: &str, element: &Element)
    requires { length (written default.now (elem_view element.now)) ≤ out.old.spare }
    ensures items { out.new.items ≡ out.old.items ++ written default.now (elem_view element.now) }
    ensures spare { out.old.spare ≤ out.new.spare + length (written default.now (elem_view element.now)) }
{
    let ns = element.ns.as_str();
    let name = element.name.as_str();
    put_start(out, default, ns, name, element.attrs.as_slice());
    put_inside(out, default, ns, name, &element.children);
}

// Adds what is behind the attributes of a start tag.
#[cycle(put)]
fn put_inside(out: &mut Bytes, default: &str, ns: &str, name: &str, children: &Vec<Node>)
    requires { length (written_inside default.now ns.now name.now (nodes_view children.now.items)) ≤ out.old.spare }
    ensures items { out.new.items ≡ out.old.items ++ written_inside default.now ns.now name.now (nodes_view children.now.items) }
    ensures spare { out.old.spare ≤ out.new.spare + length (written_inside default.now ns.now name.now (nodes_view children.now.items)) }
{
    if children.is_empty() {
        out.push_reserved(b'/');
        out.push_reserved(b'>');
        return;
    }
    out.push_reserved(b'>');
    put_nodes(out, default_inside(default, ns), children);
    put_end(out, ns, name);
}

// Adds nodes, where a default namespace is in force.
#[cycle(put)]
fn put_nodes(out: &mut Bytes, default: &str, nodes: &Vec<Node>)
    requires { length (written_nodes default.now (nodes_view nodes.now.items)) ≤ out.old.spare }
    ensures items { out.new.items ≡ out.old.items ++ written_nodes default.now (nodes_view nodes.now.items) }
    ensures spare { out.old.spare ≤ out.new.spare + length (written_nodes default.now (nodes_view nodes.now.items)) }
{
    for node in nodes {
        put_node(out, default, node);
    }
}

/// Adds a node, where a default namespace is in force.
#[cycle(put)]
pub(crate) fn put_node(out: &mut Bytes, default: &str, node: &Node)
    requires { length (written_nodes default.now (node_view node.now)) ≤ out.old.spare }
    ensures items { out.new.items ≡ out.old.items ++ written_nodes default.now (node_view node.now) }
    ensures spare { out.old.spare ≤ out.new.spare + length (written_nodes default.now (node_view node.now)) }
{
    match node {
        Node::Child(element) => put_element(out, default, element),
        Node::Text(text) => append_text_reserved(out, text.as_str().as_bytes()),
    }
}

// The length of an element, where a default namespace is in force.
#[cycle(len)]
fn element_len(default: &str, element: &Element) -> usize
    ensures { result ≡ min (length (written default.now (elem_view element.now))) (2 ^ 64 - 1) }
{
    let ns = element.ns.as_str();
    let name = element.name.as_str();
    let start = start_len(default, ns, name, element.attrs.as_slice());
    start.saturating_add(inside_len(default, ns, name, &element.children))
}

#[cycle(len)]
fn inside_len(default: &str, ns: &str, name: &str, children: &Vec<Node>) -> usize
    ensures { result ≡ min (length (written_inside default.now ns.now name.now (nodes_view children.now.items))) (2 ^ 64 - 1) }
{
    if children.is_empty() {
        return 2;
    }
    let inside = nodes_len(default_inside(default, ns), children);
    inside.saturating_add(end_len(ns, name)).saturating_add(1)
}

#[cycle(len)]
fn nodes_len(default: &str, nodes: &Vec<Node>) -> usize
    ensures { result ≡ min (length (written_nodes default.now (nodes_view nodes.now.items))) (2 ^ 64 - 1) }
{
    let mut len = 0usize;
    for node in nodes {
        len = len.saturating_add(node_len(default, node));
    }
    len
}

/// The length of a node, where a default namespace is in force.
#[cycle(len)]
pub(crate) fn node_len(default: &str, node: &Node) -> usize
    ensures { result ≡ min (length (written_nodes default.now (node_view node.now))) (2 ^ 64 - 1) }
{
    match node {
        Node::Child(element) => element_len(default, element),
        Node::Text(text) => spelled_text_len(text.as_str().as_bytes()),
    }
}

/// Makes room for so many bytes. The greatest length stands for what no memory holds.
pub(crate) fn make_room(out: &mut Bytes, len: usize) -> Result<(), NoMemory>
    ensures ok { OnOk result ((len ≤ out.new.spare) × (len < 2 ^ 64 - 1)) }
    ensures items { out.new.items ≡ out.old.items }
{
    if len == usize::MAX {
        return Err(NoMemory);
    }
    out.reserve(len)?;
    Ok(())
}

/// How many bytes `write` adds, or 2^64 - 1 where that is less. It takes no memory. The stack used grows with the depth
/// of the tree.
pub fn spelled_len(tree: &Tree) -> u64
    ensures { result ≡ min (length (canon tree.now)) (2 ^ 64 - 1) }
{
    element_len(CLIENT_NAMESPACE, tree.element()) as u64
}

/// Writes a top-level element behind what is there, in one spelling: where the default namespace is `jabber:client` and
/// the prefix `stream` is bound, as inside a header that `write_header` wrote (XML 1.0, section 3.1; Namespaces in XML
/// 1.0, sections 3 to 6).
///
/// A start tag has the name, `xmlns` exactly where the namespace isn't the default in force, and the attributes in their
/// order; values stand in single quotes, and an element with nothing inside is `<name/>`. In the streams namespace a
/// name has the prefix `stream` and no `xmlns`, and in the XML namespace the prefix `xml` and none; the default in force
/// stays the same inside these. An attribute in the XML namespace has the prefix `xml`, and one in another namespace a
/// prefix of its own, `a0`, `a1` and so on, declared just before it.
///
/// By the law `written_trees_are_spelled` the bytes spell the tree where its names and characters are those of XML. Where
/// they aren't, they are written all the same, and no reader need accept them.
///
/// The memory is reserved before the first byte is written: a refusal leaves the bytes as they were. The stack used
/// grows with the depth of the tree.
pub fn write(tree: &Tree, out: &mut Bytes) -> Result<(), NoMemory>
    ensures ok { OnOk result (out.new.items ≡ out.old.items ++ canon tree.now) }
    ensures err { OnErr result (out.new.items ≡ out.old.items) }
{
    let element = tree.element();
    make_room(out, element_len(CLIENT_NAMESPACE, element))?;
    put_element(out, CLIENT_NAMESPACE, element);
    Ok(())
}

/// Writes what `write` does, for bytes to which much is added, as a text of many elements. It takes less time and may take
/// more memory: the element isn't measured, but so much is reserved as one of its size takes at most. That is six bytes for
/// each byte of its names, namespaces, values and texts, and sixty for each element and attribute. What is left over is
/// room for what is added next. Where the bytes are for one element alone, `write` is the one to call.
///
/// The memory is reserved before the first byte is written: a refusal leaves the bytes as they were. The stack used
/// grows with the depth of the tree.
pub fn write_growing(tree: &Tree, out: &mut Bytes) -> Result<(), NoMemory>
    ensures ok { OnOk result (out.new.items ≡ out.old.items ++ canon tree.now) }
    ensures err { OnErr result (out.new.items ≡ out.old.items) }
{
    let element = tree.element();
    make_room(out, element_room(element))?;
    put_element(out, CLIENT_NAMESPACE, element);
    Ok(())
}

// Adds an attribute of a header, where it is there.
fn put_given(out: &mut Bytes, name: &str, value: &Option<Text>)
    requires { length (written_given name.now value.now) ≤ out.old.spare }
    ensures items { out.new.items ≡ out.old.items ++ written_given name.now value.now }
    ensures spare { out.old.spare ≤ out.new.spare + length (written_given name.now value.now) }
{
    match value {
        Some(text) => put_assignment(out, &[name.as_bytes()], text.as_str().as_bytes()),
        None => {}
    }
}

#[tactic(auto, unfolding(crate::specs::Canon::assignment))]
fn given_len(name: &str, value: &Option<Text>) -> usize
    ensures { result ≡ min (length (written_given name.now value.now)) (2 ^ 64 - 1) }
{
    match value {
        Some(text) => assignment_len(name.len(), text.as_str().as_bytes()),
        None => 0,
    }
}

fn header_len(header: &Header) -> usize
    ensures { result ≡ min (length (written_header header.now)) (2 ^ 64 - 1) }
{
    given_len("xml:lang", &header.lang)
        .saturating_add(71)
        .saturating_add(given_len("version", &header.version))
        .saturating_add(given_len("to", &header.to))
        .saturating_add(given_len("id", &header.id))
        .saturating_add(given_len("from", &header.from))
        .saturating_add(14)
}

// Adds a header.
fn put_header(out: &mut Bytes, header: &Header)
    requires { length (written_header header.now) ≤ out.old.spare }
    ensures { out.new.items ≡ out.old.items ++ written_header header.now }
{
    out.append_reserved(b"<stream:stream");
    put_given(out, "from", &header.from);
    put_given(out, "id", &header.id);
    put_given(out, "to", &header.to);
    put_given(out, "version", &header.version);
    put_given(out, "xml:lang", &header.lang);
    out.append_reserved(HEADER_END);
}

/// Writes the header of a stream behind what is there (RFC 6120, sections 4.7 and 4.8): `<stream:stream`, those present
/// of `from`, `id`, `to`, `version` and `xml:lang`, and the declarations of `jabber:client` as the default namespace and of
/// the prefix `stream`. What the header says of its own name and of its content namespace isn't looked at. The memory is
/// reserved first: a refusal leaves the bytes as they were.
pub fn write_header(header: &Header, out: &mut Bytes) -> Result<(), NoMemory>
    ensures ok { OnOk result (out.new.items ≡ out.old.items ++ written_header header.now) }
    ensures err { OnErr result (out.new.items ≡ out.old.items) }
{
    make_room(out, header_len(header))?;
    put_header(out, header);
    Ok(())
}

/// Writes the footer of a stream behind what is there, `</stream:stream>` (RFC 6120, section 4.4). A refusal leaves the
/// bytes as they were.
pub fn write_footer(out: &mut Bytes) -> Result<(), NoMemory>
    ensures ok { OnOk result (out.new.items ≡ out.old.items ++ written_footer) }
    ensures err { OnErr result (out.new.items ≡ out.old.items) }
{
    out.append(b"</stream:stream>")
}
