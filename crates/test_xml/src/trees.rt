//! Elements from tables, the trees of them, and copies. They are judged by how they are written, and by how many nodes
//! they have, since two texts that adjoin are written as one.
use crate::made::{Row, element, push_attrs, push_child, push_text, spelled, tree};
use base_io::{Bytes, Copied, Text};
use std::alloc::Global;
use std::process::Abort;
use xml_trees::{Element, Node, Nodes, Tree, copy_nodes};
use xml_writer::write_nodes;

/// Attributes out of order and repeated.
static ATTRS: [Row; 6] = [
    ("urn:a", "b", "3"),
    ("", "to", "first"),
    ("urn:a", "a", "4"),
    ("", "to", "second"),
    ("", "é", "5"),
    ("", "id", "1"),
];

/// Texts that are empty or adjoin. `<` stands for an element.
static NODES: [&str; 9] = ["", "one", "", "two", "three", "", "<", "", "end"];

const TIDY: &str =
    "<message id='1' to='first' é='5' xmlns:a0='urn:a' a0:a='4' xmlns:a1='urn:a' a1:b='3'>onetwothree<c xmlns=''/>end</message>";

const TIDY_INSIDE: &str =
    "<a xmlns=''><message xmlns='jabber:client' id='1' to='first' é='5' xmlns:a0='urn:a' a0:a='4' xmlns:a1='urn:a' a1:b='3'>onetwothree<c xmlns=''/>end</message></a>";

const INSIDE: &str = "onetwothree<c xmlns=''/>end";

fn push_all(rt: &impl Abort, alloc: Global, around: &mut Element, nodes: &[&str]) {
    for node in nodes {
        if *node == "<" {
            push_child(rt, around, element(rt, alloc, "", "c"))
        } else {
            push_text(rt, alloc, around, node)
        }
    }
}

fn untidy(rt: &impl Abort, alloc: Global) -> Element {
    let mut element = element(rt, alloc, "jabber:client", "message");
    push_attrs(rt, alloc, &mut element, &ATTRS);
    push_all(rt, alloc, &mut element, &NODES);
    element
}

/// The same inside an element with a text.
fn untidy_inside(rt: &impl Abort, alloc: Global) -> Element {
    let mut around = element(rt, alloc, "", "a");
    push_text(rt, alloc, &mut around, "");
    push_child(rt, &mut around, untidy(rt, alloc));
    around
}

/// How many nodes an element has, and how many its first child has.
fn counts(element: &Element) -> [usize; 2] {
    match element.children.first() {
        Some(Node::Child(inside)) => [element.children.len(), inside.children.len()],
        _ => [element.children.len(), 0],
    }
}

/// The tree is written so, and has so many nodes at two levels.
fn is_tidy(rt: &impl Abort, alloc: Global, tree: Tree, written: &str, nodes: [usize; 2]) -> bool {
    let bytes = spelled(rt, alloc, &tree);
    bytes.as_slice() == written.as_bytes() && counts(tree.element()) == nodes
}

/// The tree of the element of a tree.
fn again(rt: &impl Abort, alloc: Global, first: Tree) -> Tree {
    tree(rt, alloc, first.into_element())
}

#[test]
fn a_tree_is_tidy_at_every_level(rt: HostRuntime) {
    let alloc = rt.alloc();
    let first = tree(&rt, alloc, untidy_inside(&rt, alloc));
    assert!(rt; is_tidy(&rt, alloc, first, TIDY_INSIDE, [1, 3]));
    let second = again(&rt, alloc, tree(&rt, alloc, untidy_inside(&rt, alloc)));
    assert!(rt; is_tidy(&rt, alloc, second, TIDY_INSIDE, [1, 3]));
}

/// A copy that outlives its tree.
fn copy_of(rt: &impl Abort, alloc: Global, tree: Tree) -> Tree {
    tree.copied(alloc).expect(rt, "memory")
}

fn nodes_of(rt: &impl Abort, alloc: Global, tree: Tree) -> Nodes {
    copy_nodes(alloc, &tree.element().children).expect(rt, "memory")
}

fn are_tidy(rt: &impl Abort, alloc: Global, nodes: Nodes) -> bool {
    let mut out = Bytes::new(alloc);
    write_nodes(&mut out, "jabber:client", nodes.as_slice()).expect(rt, "memory");
    out.as_slice() == INSIDE.as_bytes() && nodes.as_slice().len() == 3
}

#[test]
fn trees_and_nodes_are_copied(rt: HostRuntime) {
    let alloc = rt.alloc();
    let copy = copy_of(&rt, alloc, tree(&rt, alloc, untidy(&rt, alloc)));
    assert!(rt; is_tidy(&rt, alloc, copy, TIDY, [3, 0]));
    let nodes = nodes_of(&rt, alloc, tree(&rt, alloc, untidy(&rt, alloc)));
    assert!(rt; are_tidy(&rt, alloc, nodes));
}

/// The texts directly in an element, one after the other, in memory of their own.
fn text_of(rt: &impl Abort, alloc: Global, element: Element) -> Text {
    element.text(alloc).expect(rt, "memory")
}

fn is_text(text: Text, expected: &str) -> bool {
    text.as_str() == expected
}

#[test]
fn texts_are_joined(rt: HostRuntime) {
    let alloc = rt.alloc();
    assert!(rt; is_text(text_of(&rt, alloc, untidy(&rt, alloc)), "onetwothreeend"));
}

/// An element around another, with texts that adjoin.
fn around(rt: &impl Abort, alloc: Global, inside: Element) -> Element {
    let mut element = element(rt, alloc, "", "a");
    push_all(rt, alloc, &mut element, &["b", "c"]);
    push_child(rt, &mut element, inside);
    element
}

fn nested(rt: &impl Abort, alloc: Global, depth: u32) -> Element {
    let mut inside = element(rt, alloc, "", "a");
    for _ in 1..depth {
        inside = around(rt, alloc, inside);
    }
    inside
}

/// How deep the first children lie in one another, counting the element itself.
fn levels(element: &Element) -> u32 {
    let mut inside = element;
    for count in 1..300 {
        match inside.child("", "a") {
            Some(next) => inside = next,
            None => return count,
        }
    }
    300
}

/// The levels of a tree, and the bytes as which it is written.
fn measures(rt: &impl Abort, alloc: Global, tree: Tree) -> (u32, usize) {
    let bytes = spelled(rt, alloc, &tree);
    (levels(tree.element()), bytes.as_slice().len())
}

/// `<a xmlns=''>bc`, 254 times `<a>bc`, `<a/>`, and 255 times `</a>`.
const DEEP_LEN: usize = 14 + 254 * 5 + 4 + 255 * 4;

#[test]
fn trees_are_as_deep_as_a_framer_admits(rt: HostRuntime) {
    let alloc = rt.alloc();
    let copy = copy_of(&rt, alloc, tree(&rt, alloc, nested(&rt, alloc, 256)));
    let (levels, bytes) = measures(&rt, alloc, copy);
    assert!(rt; levels == 256 && bytes == DEEP_LEN);
}
