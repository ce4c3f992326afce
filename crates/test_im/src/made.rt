//! Elements out of texts, and how tests judge what comes of them: by the text of a tree, or by a printed text. A test ends
//! where memory runs out.
use base_io::{Bytes, Copied};
use im_stanza::{Message, Stanza, stanza_of};
use std::alloc::Global;
use std::fmt::Display;
use std::process::Abort;
use std::str::from_utf8;
use xml_framer::{Framer, Item, Items, Limits};
use xml_trees::Tree;
use xml_writer::write;

static HEADER: &[u8] =
    b"<stream:stream xmlns='jabber:client' xmlns:stream='http://etherx.jabber.org/streams'>";

/// A header, and what a text says behind it.
fn items(rt: &impl Abort, alloc: Global, text: &str) -> Items {
    let mut framer = Framer::new(alloc, Limits::client());
    let mut items = Items::new(alloc);
    framer.feed(HEADER, &mut items).expect(rt, "a header");
    framer
        .feed(text.as_bytes(), &mut items)
        .expect(rt, "an element");
    items
}

fn last_tree(rt: &impl Abort, alloc: Global, items: Items) -> Tree {
    match items.as_slice().last() {
        Some(Item::Element(tree)) => tree.copied(alloc).expect(rt, "memory"),
        _ => panic!(rt; "no element"),
    }
}

/// The tree of an element in a stream of a client.
pub(crate) fn tree_of(rt: &impl Abort, alloc: Global, text: &str) -> Tree {
    last_tree(rt, alloc, items(rt, alloc, text))
}

/// The message that an element is.
pub(crate) fn message_of(rt: &impl Abort, alloc: Global, text: &str) -> Message {
    match stanza_of(alloc, tree_of(rt, alloc, text)).expect(rt, "a stanza") {
        Stanza::Message(message) => message,
        _ => panic!(rt; "no message"),
    }
}

pub(crate) fn is_bytes(bytes: Bytes, expected: &str) -> bool {
    bytes.as_slice() == expected.as_bytes()
}

/// The tree is written so.
pub(crate) fn spells(rt: &impl Abort, alloc: Global, tree: Tree, text: &str) {
    let mut out = Bytes::new(alloc);
    write(&tree, &mut out).expect(rt, "memory");
    assert_eq!(rt; from_utf8(out.as_slice()).unwrap_or(""), text);
}

/// The value is printed so for a reader.
pub(crate) fn prints(rt: &impl Abort, alloc: Global, value: impl Display + Drop, text: &str) {
    let shown = format!(in alloc; "{value}").expect(rt, "memory");
    assert_eq!(rt; shown.as_str(), text);
}
