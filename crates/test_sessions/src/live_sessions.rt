//! A session that is bound, written to, lost and resumed.
ghost use Rattle.std.specs.Prelude.{◌≡◌, None, Some};
ghost use Rattle.sm_live.specs.Sessions.{session_at};

use base_io::{Bytes, Text};
use sm_acks::MOST_UNACKNOWLEDGED;
use sm_live::{Live, ReservationFault};
use std::alloc::Global;
use std::process::Abort;

// Reserves a reservation of account 7, for a connection that has no session.
fn reservation(rt: &impl Abort, live: &mut Live, conn: u64)
    ensures reservation { live.new.reservation ≡ Some 7 }
    ensures conn { session_at conn live.new.sessions ≡ None }
{
    live.reserve_session(7).expect(rt, "a seat");
    assert!(rt; live.info_at(conn).is_none())
}

// Puts a stanza, where the session lives and fewer than the most wait.
fn put(rt: &impl Abort, alloc: Global, live: &mut Live, number: u64, text: &[u8]) {
    live.reserve(1).expect(rt, "memory");
    let told = live.told(number).expect(rt, "a session");
    assert!(rt; told.waiting < MOST_UNACKNOWLEDGED);
    let stanza = Bytes::from_slice(alloc, text).expect(rt, "memory");
    live.put(number, stanza)
}

// Binds a session of account 7 on connection 1 that can be resumed.
fn bind(rt: &impl Abort, alloc: Global, live: &mut Live) {
    reservation(rt, live, 1);
    let resource = Text::from_str(alloc, "phone").expect(rt, "memory");
    let number = live.bind(7, resource, 1).number;
    assert!(rt; live.told(number).is_some());
    live.enable(number, true)
        .expect(rt, "a session that counts nothing")
}

// The same with three stanzas, and without its connection.
fn lose(rt: &impl Abort, alloc: Global, live: &mut Live) {
    bind(rt, alloc, live);
    for text in [b"a", b"b", b"c"] {
        put(rt, alloc, live, 1, text);
    }
    let _ = live.park(1, 1_000);
}

// What a resumption with a count sends again.
fn resent(rt: &impl Abort, alloc: Global, live: &Live, h: u32) -> Bytes {
    assert!(rt; live.told(1).is_some());
    let stanzas = live.resent(alloc, 1, h).expect(rt, "memory");
    let mut out = Bytes::new(alloc);
    for stanza in stanzas.as_slice() {
        out.append(stanza.as_slice()).expect(rt, "memory");
    }
    out
}

// Resumes with a count on connection 2; how many stanzas wait there then.
fn resumed(rt: &impl Abort, live: &mut Live, h: u32) -> Option<u64> {
    reservation(rt, live, 2);
    if live.resume("0000000000000001", 7, h, 2).is_err() {
        return None;
    }
    match live.info_at(2) {
        Some(told) => Some(told.waiting),
        None => None,
    }
}

fn is_bytes(bytes: Bytes, expected: &[u8]) -> bool {
    bytes.as_slice() == expected
}

fn comes_back(rt: &impl Abort, alloc: Global, h: u32, texts: &[u8], left: Option<u64>) -> bool {
    let mut live = Live::new(alloc, 1);
    lose(rt, alloc, &mut live);
    is_bytes(resent(rt, alloc, &live, h), texts) && resumed(rt, &mut live, h) == left
}

// Counts, what is sent again, and how many stanzas wait after the resumption; at the last the session ends.
static COUNTS: [(u32, &[u8], Option<u64>); 4] = [
    (0, b"abc", Some(3)),
    (1, b"bc", Some(2)),
    (3, b"", Some(0)),
    (4, b"", None),
];

#[test]
fn sessions_come_back_with_what_was_not_handled(rt: HostRuntime) {
    for (h, texts, left) in COUNTS {
        assert!(rt; comes_back(&rt, rt.alloc(), h, texts, left));
    }
}

fn is_text(text: String, expected: &str) -> bool {
    text.as_str() == expected
}

#[test]
fn refusals_are_printed(rt: HostRuntime) {
    let used_up = ReservationFault::NumbersUsedUp;
    let memory = ReservationFault::NoMemory;
    let text = format!(in rt.alloc(); "{used_up}, {memory}").expect(&rt, "memory");
    assert!(rt;
        is_text(
            text,
            "no number is left for a session or its queue, out of memory"
        )
    );
}
