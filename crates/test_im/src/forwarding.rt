//! What a server passes on, as it is sent (XEP-0280, XEP-0313, XEP-0359).
use crate::made::{is_bytes, message_of, tree_of};
use base_io::{Bytes, Numbers, Text};
use im_forwarding::{
    Addressed, Asker, CarbonCopy, Filed, QueryFault, archived, no_such_place, page_end, passed,
    query_asked,
};
use im_mam::MamQuery;
use im_replies::Envelope;
use im_stanza::Message;
use mam_archive::{ArchivedMessage, Bodies, Body, Entry};
use mam_pages::PageCut;
use std::alloc::Global;
use std::process::Abort;

// What is passed on: which call, and with what it is called. The end of a page, by whether it was asked for backwards.
#[derive(Clone, Copy)]
enum Said {
    Passed(Option<u64>),
    Copied(bool),
    Archived,
    PageEnd(bool),
}

const ALICE: &str = "alice@chat.example/phone";

const BOB: &str = "bob@chat.example";

const DESK: &str = "bob@chat.example/desk";

// Each thing, what is in its message, and its bytes.
static EXPECTED: [(Said, &str, &str); 8] = [
    (
        Said::Passed(None),
        "<body>Hi</body>",
        "<message from='alice@chat.example/phone' id='m1' to='bob@chat.example' type='chat'><body>Hi</body></message>",
    ),
    (
        Said::Passed(Some(26)),
        "<body>&lt;Hi&gt;</body>",
        "<message from='alice@chat.example/phone' id='m1' to='bob@chat.example' type='chat'><body>&lt;Hi&gt;</body><stanza-id xmlns='urn:xmpp:sid:0' by='bob@chat.example' id='000000000000001a'/></message>",
    ),
    (
        Said::Passed(None),
        "",
        "<message from='alice@chat.example/phone' id='m1' to='bob@chat.example' type='chat'/>",
    ),
    (
        Said::Copied(true),
        "<body>Hi</body>",
        "<message from='bob@chat.example' to='bob@chat.example/desk' type='chat'><sent xmlns='urn:xmpp:carbons:2'><forwarded xmlns='urn:xmpp:forward:0'><delay xmlns='urn:xmpp:delay' stamp='1970-01-01T00:00:00.005Z'/><message xmlns='jabber:client' from='alice@chat.example/phone' id='m1' to='bob@chat.example' type='chat'><body>Hi</body></message></forwarded></sent></message>",
    ),
    (
        Said::Copied(false),
        "",
        "<message from='bob@chat.example' to='bob@chat.example/desk' type='chat'><received xmlns='urn:xmpp:carbons:2'><forwarded xmlns='urn:xmpp:forward:0'><delay xmlns='urn:xmpp:delay' stamp='1970-01-01T00:00:00.005Z'/><message xmlns='jabber:client' from='alice@chat.example/phone' id='m1' to='bob@chat.example' type='chat'/></forwarded></received></message>",
    ),
    (
        Said::Archived,
        "",
        "<message from='bob@chat.example' to='bob@chat.example/desk'><result xmlns='urn:xmpp:mam:2' id='0000000000000007' queryid='q1'><forwarded xmlns='urn:xmpp:forward:0'><delay xmlns='urn:xmpp:delay' stamp='1970-01-01T00:00:00.005Z'/><message xmlns='jabber:client' from='alice@chat.example/phone' id='m1' to='bob@chat.example' type='normal'><body xml:lang='cs'>Hi</body><origin-id xmlns='urn:xmpp:sid:0' id='o1'/></message></forwarded></result></message>",
    ),
    (
        Said::PageEnd(false),
        "",
        "<iq from='bob@chat.example' id='i1' to='bob@chat.example/desk' type='result'><fin xmlns='urn:xmpp:mam:2' complete='true'><set xmlns='http://jabber.org/protocol/rsm'><first index='3'>0000000000000007</first><last>0000000000000007</last><count>4</count></set></fin></iq>",
    ),
    (
        Said::PageEnd(true),
        "",
        "<iq from='bob@chat.example' id='i1' to='bob@chat.example/desk' type='result'><fin xmlns='urn:xmpp:mam:2' complete='true'><set xmlns='http://jabber.org/protocol/rsm'><first>0000000000000007</first><last>0000000000000007</last><count>4</count></set></fin></iq>",
    ),
];

// A message with this in it, and an id that was given in Bob's name.
fn message(rt: &impl Abort, alloc: Global, inside: &str) -> Message {
    let id = "<stanza-id xmlns='urn:xmpp:sid:0' by='bob@chat.example'/>";
    let text = format!(in alloc; "<message id='m1' type='chat'>{inside}{id}</message>");
    message_of(rt, alloc, text.expect(rt, "memory").as_str())
}

fn passed_on(rt: &impl Abort, alloc: Global, number: Option<u64>, message: Message) -> Bytes {
    let addressed = Addressed {
        message: &message,
        from: ALICE,
        to: BOB,
    };
    let bytes = passed(alloc, &addressed, &Filed { by: BOB, number });
    drop(message);
    bytes.expect(rt, "memory")
}

fn copied(rt: &impl Abort, alloc: Global, sent: bool, message: &Message) -> Bytes {
    let filed = Filed {
        by: BOB,
        number: None,
    };
    let addressed = Addressed {
        message,
        from: ALICE,
        to: BOB,
    };
    let copy = CarbonCopy {
        sent,
        moment: 5,
        message: &addressed,
        filed: &filed,
    };
    let inside = copy.inside(alloc).expect(rt, "memory");
    copy.to(alloc, DESK, &inside).expect(rt, "memory")
}

fn copied_on(rt: &impl Abort, alloc: Global, sent: bool, message: Message) -> Bytes {
    let bytes = copied(rt, alloc, sent, &message);
    drop(message);
    bytes
}

fn text(rt: &impl Abort, alloc: Global, text: &str) -> Text {
    Text::from_str(alloc, text).expect(rt, "memory")
}

fn bodies(rt: &impl Abort, alloc: Global) -> Bodies {
    let mut bodies = Bodies::new(alloc);
    let body = Body {
        lang: text(rt, alloc, "cs"),
        text: text(rt, alloc, "Hi"),
    };
    bodies.push(body).expect(rt, "memory");
    bodies
}

fn entry(rt: &impl Abort, alloc: Global) -> Entry {
    let message = ArchivedMessage {
        stamp: 5,
        from: text(rt, alloc, ALICE),
        to: text(rt, alloc, BOB),
        normal: true,
        id: text(rt, alloc, "m1"),
        origin: text(rt, alloc, "o1"),
        bodies: bodies(rt, alloc),
    };
    Entry::new(alloc, 7, message).expect(rt, "memory")
}

fn result(rt: &impl Abort, alloc: Global) -> Bytes {
    let asker = Asker {
        by: BOB,
        full: DESK,
        queryid: "q1",
    };
    archived(alloc, &asker, &entry(rt, alloc)).expect(rt, "memory")
}

fn numbers(rt: &impl Abort, alloc: Global) -> Numbers {
    let mut numbers = Numbers::new(alloc);
    numbers.push(7).expect(rt, "memory");
    numbers
}

fn end(rt: &impl Abort, alloc: Global, backward: bool) -> Bytes {
    let cut = PageCut {
        numbers: numbers(rt, alloc),
        first_index: 3,
        count: 4,
        complete: true,
        backward,
    };
    let envelope = Envelope {
        from: Some(BOB),
        to: Some(DESK),
        id: "i1",
    };
    page_end(alloc, &envelope, &cut).expect(rt, "memory")
}

fn bytes_of(rt: &impl Abort, alloc: Global, said: Said, inside: &str) -> Bytes {
    match said {
        Said::Passed(number) => passed_on(rt, alloc, number, message(rt, alloc, inside)),
        Said::Copied(sent) => copied_on(rt, alloc, sent, message(rt, alloc, inside)),
        Said::Archived => result(rt, alloc),
        Said::PageEnd(backward) => end(rt, alloc, backward),
    }
}

#[test]
fn what_is_passed_on_is_these_bytes(rt: HostRuntime) {
    for (said, inside, expected) in &EXPECTED {
        assert!(rt; is_bytes(bytes_of(&rt, rt.alloc(), *said, inside), expected));
    }
}

// Elements, and by which condition each is refused as a query, empty where it is read.
static QUERIES: [(&str, &str); 2] = [
    ("<query xmlns='urn:xmpp:mam:2'/>", ""),
    ("<ping xmlns='urn:xmpp:mam:2'/>", "service-unavailable"),
];

fn asked(rt: &impl Abort, alloc: Global, text: &str) -> Result<MamQuery, QueryFault> {
    query_asked(alloc, tree_of(rt, alloc, text).element())
}

fn is_asked(asked: Result<MamQuery, QueryFault>, condition: &str) -> bool {
    let is_asked = match &asked {
        Ok(query) => condition.is_empty() && query.queryid.as_str().is_empty(),
        Err(QueryFault::Refused(error)) => error.condition.name() == condition,
        Err(QueryFault::NoMemory) => false,
    };
    drop(asked);
    is_asked
}

#[test]
fn queries_are_read_or_refused(rt: HostRuntime) {
    for (text, condition) in &QUERIES {
        assert!(rt; is_asked(asked(&rt, rt.alloc(), text), condition));
    }
    assert!(rt; no_such_place().condition.name() == "item-not-found");
}
