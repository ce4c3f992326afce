//! A session that is written to, and resumed with a count.
use base_io::{Bytes, Text};
use sm_outbox::{Outbox, Session};
use std::alloc::Global;
use std::process::Abort;

fn bytes(rt: &impl Abort, alloc: Global, text: &[u8]) -> Bytes {
    Bytes::from_slice(alloc, text).expect(rt, "memory")
}

// Submits a text. What is sent now goes into `out`.
fn submit(rt: &impl Abort, session: &mut Session, text: Bytes, is_attached: bool, out: &mut Bytes) {
    assert!(rt; !session.is_full());
    session
        .submit(text, b"?", is_attached, out)
        .expect(rt, "memory")
}

// A session to which nothing was written.
fn session(rt: &impl Abort, alloc: Global) -> Session {
    let previd = Text::from_str(alloc, "7").expect(rt, "memory");
    Session::new(alloc, previd).expect(rt, "memory")
}

// Two submissions and between them an answer wait; what was sent at once goes into `out`.
fn fill(rt: &impl Abort, alloc: Global, session: &mut Session, out: &mut Bytes) {
    submit(rt, session, bytes(rt, alloc, b"a"), true, out);
    let _ = session
        .answer(bytes(rt, alloc, b"b"), out)
        .expect(rt, "memory");
    submit(rt, session, bytes(rt, alloc, b"c"), false, out)
}

// How many stanzas and submissions a count acknowledges, and how many stanzas wait then.
fn taken(session: &mut Session, h: u32) -> Option<[u64; 3]> {
    match session.ack(h) {
        Ok(taken) => Some([
            u64::from(taken.stanzas),
            taken.submissions as u64,
            session.len(),
        ]),
        Err(_) => None,
    }
}

fn comes_back(
    rt: &impl Abort,
    alloc: Global,
    h: u32,
    texts: &[u8],
    following: Option<[u64; 3]>,
) -> bool {
    let mut out = Bytes::new(alloc);
    let mut session = session(rt, alloc);
    fill(rt, alloc, &mut session, &mut out);
    session.append_resent(h, &mut out).expect(rt, "memory");
    out.as_slice() == texts && session.handled() == 1 && taken(&mut session, h) == following
}

// Counts, what is sent at once and then again, and what is so behind the acknowledgement; the last is too high.
static COUNTS: [(u32, &[u8], Option<[u64; 3]>); 4] = [
    (0, b"a?babc", Some([0, 0, 3])),
    (1, b"a?bbc", Some([1, 1, 2])),
    (3, b"a?b", Some([3, 2, 0])),
    (4, b"a?b", None),
];

#[test]
fn sessions_come_back_with_what_was_not_handled(rt: HostRuntime) {
    for (h, texts, following) in COUNTS {
        assert!(rt; comes_back(&rt, rt.alloc(), h, texts, following));
    }
}

// Room that was made takes a stanza.
fn takes_one(rt: &impl Abort, outbox: &mut Outbox, stanza: Bytes) {
    outbox.reserve(1).expect(rt, "memory");
    assert!(rt; !outbox.is_full());
    outbox.put_reserved(stanza, true);
    assert!(rt; outbox.len() == 1 && outbox.is_too_high(2).is_some())
}

#[test]
fn room_is_made_first(rt: HostRuntime) {
    let mut outbox = Outbox::new(rt.alloc()).expect(&rt, "memory");
    takes_one(&rt, &mut outbox, bytes(&rt, rt.alloc(), b"a"));
}
