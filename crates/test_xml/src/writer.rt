//! Elements, headers and footers as they are written.
use crate::made::{Row, element, header, push_attrs, push_child, push_text, tree};
use base_io::Bytes;
use std::alloc::Global;
use std::process::Abort;
use xml_trees::{Element, Tree};
use xml_writer::{spelled_len, write, write_footer, write_growing, write_header};

static ATTRS: [Row; 5] = [
    ("", "id", "<&>'\"\t\n\r"),
    ("http://www.w3.org/XML/1998/namespace", "lang", "en"),
    ("urn:a", "b", "1"),
    ("urn:a", "c", "2"),
    ("urn:b", "c", "é"),
];

/// Elements inside, with a text each.
static INSIDE: [Row; 6] = [
    ("jabber:client", "body", "<&>'\"\t\n\r é"),
    ("urn:a", "x", ""),
    ("", "y", ""),
    ("http://etherx.jabber.org/streams", "error", "e"),
    ("http://www.w3.org/XML/1998/namespace", "a", "b"),
    ("jabber:client", "z", ""),
];

const WRITTEN: &str =
    "<message id='&lt;&amp;&gt;&apos;\"&#x9;&#xA;&#xD;' xml:lang='en' xmlns:a0='urn:a' a0:b='1' xmlns:a1='urn:a' a1:c='2' xmlns:a2='urn:b' a2:c='é'><body>&lt;&amp;&gt;'\"\t\n&#xD; é</body><x xmlns='urn:a'/><y xmlns=''/><stream:error>e</stream:error><xml:a>b</xml:a><z/></message>";

fn push_all(rt: &impl Abort, alloc: Global, around: &mut Element, rows: &[Row]) {
    for row in rows {
        let mut inside = element(rt, alloc, row.0, row.1);
        push_text(rt, alloc, &mut inside, row.2);
        push_child(rt, around, inside);
    }
}

fn message(rt: &impl Abort, alloc: Global) -> Tree {
    let mut element = element(rt, alloc, "jabber:client", "message");
    push_attrs(rt, alloc, &mut element, &ATTRS);
    push_all(rt, alloc, &mut element, &INSIDE);
    tree(rt, alloc, element)
}

/// The tree as it is written with its length known before, and twice into bytes that grow.
fn thrice(rt: &impl Abort, alloc: Global, tree: &Tree) -> Bytes {
    let mut out = Bytes::new(alloc);
    write(tree, &mut out).expect(rt, "memory");
    write_growing(tree, &mut out).expect(rt, "memory");
    write_growing(tree, &mut out).expect(rt, "memory");
    out
}

/// Whether bytes are three times the same.
fn is_thrice(bytes: &[u8], one: &[u8]) -> bool {
    for part in bytes.chunks(one.len().max(1)) {
        if part != one {
            return false;
        }
    }
    bytes.len() == one.len().saturating_mul(3)
}

fn is_written(rt: &impl Abort, alloc: Global, tree: Tree, expected: &str) -> bool {
    let bytes = thrice(rt, alloc, &tree);
    is_thrice(bytes.as_slice(), expected.as_bytes()) && spelled_len(&tree) == expected.len() as u64
}

#[test]
fn an_element_is_written_in_one_spelling(rt: HostRuntime) {
    let alloc = rt.alloc();
    assert!(rt; is_written(&rt, alloc, message(&rt, alloc), WRITTEN));
}

/// The header of a server, as another writes it.
const GIVEN: &[u8] =
    b"<s:stream xmlns:s='http://etherx.jabber.org/streams' xml:lang='en' id=\"x'1\" from='example.org'>";

const HEADER: &[u8] =
    b"<stream:stream from='example.org' id='x&apos;1' xml:lang='en' xmlns='jabber:client' xmlns:stream='http://etherx.jabber.org/streams'></stream:stream>";

/// A header and a footer, one after the other.
fn whole(rt: &impl Abort, alloc: Global) -> Bytes {
    let mut out = Bytes::new(alloc);
    write_header(&header(rt, alloc, GIVEN), &mut out).expect(rt, "memory");
    write_footer(&mut out).expect(rt, "memory");
    out
}

fn is_bytes(bytes: Bytes, expected: &[u8]) -> bool {
    bytes.as_slice() == expected
}

#[test]
fn a_header_and_a_footer_are_written(rt: HostRuntime) {
    assert!(rt; is_bytes(whole(&rt, rt.alloc()), HEADER));
}
