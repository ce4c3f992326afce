//! Errors of stanzas and of streams.
use crate::made::{prints, tree_of};
use im_stanza::{
    Condition, ErrorKind, StanzaError, StanzaErrorFault, bounce, stanza_error, stream_condition,
    stream_error,
};
use std::alloc::Global;
use std::process::Abort;
use xml_trees::Tree;

// A condition of stanzas, the kind that it goes with there, and whether it has a variant of its own (RFC 6120, section
// 8.3.3).
static CONDITIONS: [(&str, ErrorKind, bool); 12] = [
    ("bad-request", ErrorKind::Modify, true),
    ("conflict", ErrorKind::Cancel, false),
    ("feature-not-implemented", ErrorKind::Cancel, true),
    ("forbidden", ErrorKind::Auth, false),
    ("item-not-found", ErrorKind::Cancel, true),
    ("jid-malformed", ErrorKind::Modify, true),
    ("recipient-unavailable", ErrorKind::Wait, false),
    ("remote-server-not-found", ErrorKind::Cancel, true),
    ("resource-constraint", ErrorKind::Wait, true),
    ("service-unavailable", ErrorKind::Cancel, true),
    ("undefined-condition", ErrorKind::Continue, false),
    ("unexpected-request", ErrorKind::Wait, true),
];

// The error of this condition and kind, by its copy.
fn bounced(rt: &impl Abort, alloc: Global, name: &str, kind: ErrorKind) -> Tree {
    let condition = Condition::named(alloc, name).expect(rt, "memory");
    let error = StanzaError { kind, condition };
    let copy = error.copy(alloc).expect(rt, "memory");
    bounce(alloc, "not an address", "7", &copy).expect(rt, "memory")
}

fn is_error(error: &StanzaError, row: &(&str, ErrorKind, bool)) -> bool {
    let is_other = matches!(error.condition, Condition::Other(_));
    error.condition.name() == row.0 && error.kind == row.1 && is_other != row.2
}

fn is_bounced(alloc: Global, tree: &Tree, row: &(&str, ErrorKind, bool)) -> bool {
    match stanza_error(alloc, tree) {
        Ok(error) => is_error(&error, row),
        Err(_) => false,
    }
}

fn is_answer(alloc: Global, tree: Tree, row: &(&str, ErrorKind, bool)) -> bool {
    tree.element().attr("", "from") == Some("not an address") && is_bounced(alloc, &tree, row)
}

#[test]
fn conditions_are_read_back(rt: HostRuntime) {
    let alloc = rt.alloc();
    for row in &CONDITIONS {
        assert!(rt; is_answer(alloc, bounced(&rt, alloc, row.0, row.1), row));
    }
}

// Conditions of streams (RFC 6120, section 4.9.3), and whether they are read back.
static STREAM_CONDITIONS: [(&str, bool); 4] = [
    ("conflict", true),
    ("not-well-formed", true),
    ("undefined-condition", true),
    ("text", false),
];

const TOO_HIGH: &str = "<handled-count-too-high xmlns='urn:xmpp:sm:3'/>";

// A stream error to which an element is added.
fn added_to(rt: &impl Abort, alloc: Global, condition: &str) -> Tree {
    let extra = tree_of(rt, alloc, TOO_HIGH);
    stream_error(alloc, condition, Some(extra)).expect(rt, "memory")
}

fn has_condition(tree: Tree, name: &str) -> bool {
    let added = tree
        .element()
        .child("urn:xmpp:sm:3", "handled-count-too-high");
    added.is_some() && stream_condition(&tree) == Some(name)
}

#[test]
fn stream_conditions_are_read_back(rt: HostRuntime) {
    for (name, is_read) in &STREAM_CONDITIONS {
        assert!(rt; has_condition(added_to(&rt, rt.alloc(), name), name) == *is_read);
    }
}

static FAULTS: [(StanzaErrorFault, &str); 2] = [
    (StanzaErrorFault::NoError, "no error with a condition"),
    (StanzaErrorFault::NoMemory, "out of memory"),
];

#[test]
fn faults_have_texts(rt: HostRuntime) {
    for (fault, text) in &FAULTS {
        prints(&rt, rt.alloc(), *fault, text);
    }
}
