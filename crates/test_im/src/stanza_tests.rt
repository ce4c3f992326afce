//! Elements read as stanzas, and how these are written.
use crate::made::{prints, spells, tree_of};
use im_stanza::{
    Iq, Message, Presence, Stanza, StanzaFault, iq_tree, message_tree, presence_tree, read_stanza,
    stanza_of,
};
use std::alloc::Global;
use std::process::Abort;
use xml_trees::Tree;

// An element of `jabber:client`, and what is written of the stanza that it is (RFC 6120, section 8.1; RFC 6121,
// sections 4.7.1 and 5.2.2).
static STANZAS: [(&str, &str); 7] = [
    (
        "<message from='Romeo@Montague.example/Orchard' to='juliet@capulet.example' id='1' type='chat' xml:lang='en'>5</message>",
        "<message from='romeo@montague.example/Orchard' id='1' to='juliet@capulet.example' type='chat' xml:lang='en'>5</message>",
    ),
    (
        "<message type='Chat' id=''>5</message>",
        "<message type='normal'>5</message>",
    ),
    (
        "<presence type='subscribe' id='' to='A.example.'>5</presence>",
        "<presence to='a.example' type='probe'/>",
    ),
    (
        "<presence type='error' id='2'>5</presence>",
        "<presence id='2' type='error'/>",
    ),
    (
        "<presence from='a.example/b'>5</presence>",
        "<presence from='a.example/b'/>",
    ),
    ("<iq id='' type='get'>5</iq>", "<iq id='' type='get'>5</iq>"),
    (
        "<iq id='3' type='error' from='a.example'>5</iq>",
        "<iq from='a.example' id='3' type='error'>5</iq>",
    ),
];

fn message_copy(rt: &impl Abort, alloc: Global, message: &Message) -> Tree {
    let copy = message.copy(alloc).expect(rt, "memory");
    copy.into_tree(alloc).expect(rt, "memory")
}

fn presence_copy(rt: &impl Abort, alloc: Global, presence: &Presence) -> Tree {
    let copy = presence.copy(alloc).expect(rt, "memory");
    presence_tree(alloc, &copy).expect(rt, "memory")
}

fn iq_copy(rt: &impl Abort, alloc: Global, iq: &Iq) -> Tree {
    let copy = iq.copy(alloc).expect(rt, "memory");
    copy.into_tree(alloc).expect(rt, "memory")
}

// A stanza is dropped by a call: where its scope drops it, each of its fields is a way of its own in the proof.

// The tree that a copy of a stanza is moved into.
fn copied(rt: &impl Abort, alloc: Global, stanza: Stanza) -> Tree {
    let copy = match &stanza {
        Stanza::Message(message) => message_copy(rt, alloc, message),
        Stanza::Presence(presence) => presence_copy(rt, alloc, presence),
        Stanza::Iq(iq) => iq_copy(rt, alloc, iq),
    };
    drop(stanza);
    copy
}

fn written(rt: &impl Abort, alloc: Global, stanza: Stanza) -> Tree {
    let tree = match &stanza {
        Stanza::Message(message) => message_tree(alloc, message),
        Stanza::Presence(presence) => presence_tree(alloc, presence),
        Stanza::Iq(iq) => iq_tree(alloc, iq),
    };
    drop(stanza);
    tree.expect(rt, "memory")
}

// What is written of the stanza that is moved out of the tree of a copy of the stanza that a tree is read as.
fn again(rt: &impl Abort, alloc: Global, tree: Tree) -> Tree {
    let copy = copied(rt, alloc, read_stanza(alloc, &tree).expect(rt, "a stanza"));
    written(rt, alloc, stanza_of(alloc, copy).expect(rt, "a stanza"))
}

#[test]
fn stanzas_are_read_copied_moved_and_written(rt: HostRuntime) {
    let alloc = rt.alloc();
    for (given, written) in &STANZAS {
        spells(
            &rt,
            alloc,
            again(&rt, alloc, tree_of(&rt, alloc, given)),
            written,
        );
    }
}

// What is refused, the text of the refusal, and the address of the sender that it has.
static REFUSED: [(&str, &str, &str); 4] = [
    ("<query from=''>5</query>", "no stanza", "-"),
    (
        "<iq type='get' from='@'>5</iq>",
        "an iq without an id or a type",
        "-",
    ),
    (
        "<message from='' to='@'>5</message>",
        "the sender's address is no address",
        "-",
    ),
    (
        "<presence from='A@b' to='@'>5</presence>",
        "the recipient's address is no address",
        "a@b",
    ),
];

fn fault_of(rt: &impl Abort, alloc: Global, tree: Tree) -> StanzaFault {
    match read_stanza(alloc, &tree) {
        Ok(_) => panic!(rt; "a stanza"),
        Err(fault) => fault,
    }
}

fn sender(fault: &StanzaFault) -> &str {
    match fault {
        StanzaFault::BadTo {
            from: Some(from),
            ..
        } => from.text(),
        _ => "-",
    }
}

fn is_refused(rt: &impl Abort, alloc: Global, fault: StanzaFault, text: &str, from: &str) {
    assert!(rt; sender(&fault) == from);
    prints(rt, alloc, fault, text);
}

#[test]
fn other_elements_are_refused(rt: HostRuntime) {
    let alloc = rt.alloc();
    for (given, text, from) in &REFUSED {
        let fault = fault_of(&rt, alloc, tree_of(&rt, alloc, given));
        is_refused(&rt, alloc, fault, text, from);
    }
}

// A presence with a `priority`, and the priority (RFC 6121, section 4.7.2.3).
static PRIORITIES: [(&str, i8); 8] = [
    ("<presence><priority>5</priority></presence>", 5),
    ("<presence><priority>-128</priority></presence>", -128),
    ("<presence><priority>-007</priority></presence>", -7),
    ("<presence><priority>128</priority></presence>", 0),
    ("<presence><priority>+1</priority></presence>", 0),
    ("<presence><priority> 1</priority></presence>", 0),
    ("<presence><priority>--1</priority></presence>", 0),
    ("<presence><priority/></presence>", 0),
];

fn priority(rt: &impl Abort, alloc: Global, tree: Tree) -> Option<i8> {
    let stanza = read_stanza(alloc, &tree).expect(rt, "a stanza");
    let priority = match &stanza {
        Stanza::Presence(presence) => Some(presence.priority),
        _ => None,
    };
    drop(stanza);
    priority
}

#[test]
fn priorities_are_read(rt: HostRuntime) {
    let alloc = rt.alloc();
    for (given, number) in &PRIORITIES {
        assert!(rt; priority(&rt, alloc, tree_of(&rt, alloc, given)) == Some(*number));
    }
}
