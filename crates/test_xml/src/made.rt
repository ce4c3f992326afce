//! What tests make, and how they judge what comes of it: by a printed text, or by bytes. A test ends where memory runs out.
use base_io::{Bytes, NoMemory, Text};
use std::alloc::Global;
use std::fmt::{Debug, Display};
use std::process::Abort;
use xml_names::{Header, Scopes, Tag, TagLimits, header_of, read_start};
use xml_trees::{Attr, Element, Tree};
use xml_writer::write;

/// Limits that none of these tags is past.
const WIDE: TagLimits = TagLimits {
    attributes: 64,
    namespace_bytes: 255,
};

/// The value is printed so for a programmer.
pub(crate) fn shows(rt: &impl Abort, alloc: Global, value: impl Debug + Drop, text: &str) {
    let shown = format!(in alloc; "{value:?}").expect(rt, "memory");
    assert_eq!(rt; shown.as_str(), text);
}

/// The value is printed so for a reader.
pub(crate) fn prints(rt: &impl Abort, alloc: Global, value: impl Display + Drop, text: &str) {
    let shown = format!(in alloc; "{value}").expect(rt, "memory");
    assert_eq!(rt; shown.as_str(), text);
}

pub(crate) fn append(rt: &impl Abort, out: &mut Bytes, part: &[u8]) {
    out.append(part).expect(rt, "memory")
}

/// So many times the same behind what is there.
pub(crate) fn append_times(rt: &impl Abort, out: &mut Bytes, part: &[u8], times: usize) {
    for _ in 0..times {
        append(rt, out, part);
    }
}

/// A namespace, a name, and a value or a text.
pub(crate) type Row = (&'static str, &'static str, &'static str);

pub(crate) fn element(rt: &impl Abort, alloc: Global, ns: &str, name: &str) -> Element {
    Element::from_strs(alloc, ns, name).expect(rt, "memory")
}

pub(crate) fn push_attrs(rt: &impl Abort, alloc: Global, element: &mut Element, rows: &[Row]) {
    for row in rows {
        let attr = Attr::from_strs(alloc, row.0, row.1, row.2).expect(rt, "memory");
        element.push_attr(attr).expect(rt, "memory");
    }
}

pub(crate) fn push_text(rt: &impl Abort, alloc: Global, element: &mut Element, text: &str) {
    let text = Text::from_str(alloc, text).expect(rt, "memory");
    element.push_text(text).expect(rt, "memory")
}

pub(crate) fn push_child(rt: &impl Abort, around: &mut Element, inside: Element) {
    around.push_child(inside).expect(rt, "memory")
}

pub(crate) fn tree(rt: &impl Abort, alloc: Global, element: Element) -> Tree {
    Tree::of(alloc, element).expect(rt, "memory")
}

/// A tree as it is written.
pub(crate) fn spelled(rt: &impl Abort, alloc: Global, tree: &Tree) -> Bytes {
    let mut out = Bytes::new(alloc);
    write(tree, &mut out).expect(rt, "memory");
    out
}

/// A start tag with its names expanded.
pub(crate) fn tag(rt: &impl Abort, alloc: Global, scope: &Scopes, bytes: &[u8]) -> Tag {
    read_start(alloc, WIDE, scope, bytes).expect(rt, "a tag")
}

/// The header that a start tag is.
pub(crate) fn header(rt: &impl Abort, alloc: Global, bytes: &[u8]) -> Header {
    let tag = tag(rt, alloc, &Scopes::new(alloc), bytes);
    header_of(alloc, tag).expect(rt, "memory").header
}
