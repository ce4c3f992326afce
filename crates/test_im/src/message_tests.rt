//! The bodies of messages, and the entry of a message.
use crate::made::{message_of, tree_of};
use im_messages::{bodies_of, message_entry};
use im_stanza::Message;
use mam_archive::{Bodies, Body, Entry};
use std::alloc::Global;
use std::process::Abort;
use xml_trees::Tree;

// The language and the text of a body.
type Spoken = (&'static str, &'static str);

// Messages and the bodies in them.
static PAYLOADS: [(&str, &[Spoken]); 4] = [
    (
        "<message><body>Wherefore art thou?</body><subject>I implore you!</subject><body xml:lang='cs'>Pročež jsi ty?</body></message>",
        &[("", "Wherefore art thou?"), ("cs", "Pročež jsi ty?")],
    ),
    ("<message><thread>e0ffe42b28561960</thread></message>", &[]),
    (
        "<message><body xmlns='http://www.w3.org/1999/xhtml'>Hi</body></message>",
        &[],
    ),
    (
        "<message><body>Hi <b xmlns='urn:example'>there</b></body></message>",
        &[("", "Hi ")],
    ),
];

fn bodies_in(rt: &impl Abort, alloc: Global, tree: Tree) -> Bodies {
    bodies_of(alloc, &tree.element().children).expect(rt, "memory")
}

fn are(bodies: &[Body], expected: &[Spoken]) -> bool {
    for (i, (lang, text)) in expected.iter().enumerate() {
        match bodies.get(i) {
            Some(body) if body.lang.as_str() == *lang && body.text.as_str() == *text => {}
            _ => return false,
        }
    }
    bodies.len() == expected.len()
}

fn are_in(bodies: Bodies, expected: &[Spoken]) -> bool {
    are(bodies.as_slice(), expected)
}

#[test]
fn bodies_are_found(rt: HostRuntime) {
    let alloc = rt.alloc();
    for (text, expected) in &PAYLOADS {
        assert!(rt; are_in(bodies_in(&rt, alloc, tree_of(&rt, alloc, text)), expected));
    }
}

// Messages with the id that the sender gave (XEP-0359, section 3.2), the address that is kept, and whether the entry is of
// a normal message.
static KEPT: [(&str, &str, bool); 3] = [
    (
        "<message from='Romeo@example.net/orchard' id='m1' type='chat'><body>Hi</body><origin-id xmlns='urn:xmpp:sid:0' id='de305d54'/></message>",
        "romeo@example.net/orchard",
        false,
    ),
    (
        "<message from='a@b' id='m1' type='normal'><body>Hi</body><origin-id xmlns='urn:xmpp:sid:0' id='de305d54'/></message>",
        "a@b",
        true,
    ),
    (
        "<message id='m1' type='headline'><body>Hi</body><origin-id xmlns='urn:xmpp:sid:0' id='de305d54'/></message>",
        "",
        false,
    ),
];

// A message is dropped by a call: where its scope drops it, each of its fields is a way of its own in the proof.
fn entry(rt: &impl Abort, alloc: Global, message: Message) -> Entry {
    let entry = message_entry(alloc, 7, 5, &message);
    drop(message);
    entry.expect(rt, "memory")
}

fn is_said(entry: &Entry) -> bool {
    let kept = entry.message();
    let ids = kept.id.as_str() == "m1" && kept.origin.as_str() == "de305d54";
    let counts = entry.number() == 7 && kept.stamp == 5;
    ids && counts && kept.to.as_str().is_empty() && are(kept.bodies.as_slice(), &[("", "Hi")])
}

fn is_kept(entry: Entry, from: &str, normal: bool) -> bool {
    let kept = entry.message();
    is_said(&entry) && kept.from.as_str() == from && kept.normal == normal
}

#[test]
fn entries_are_kept(rt: HostRuntime) {
    let alloc = rt.alloc();
    for (text, from, normal) in &KEPT {
        let entry = entry(&rt, alloc, message_of(&rt, alloc, text));
        assert!(rt; is_kept(entry, from, *normal));
    }
}
