//! Each call of the acknowledgements once, and the text of a refusal.
ghost use Rattle.std.specs.Prelude.{◌≡◌};

use base_io::Bytes;
use sm_acks::{AckEnd, MOST_UNACKNOWLEDGED, Pool, TooHigh};
use std::alloc::Global;
use std::process::Abort;

// Puts a stanza. The queue lives and is not full.
fn put(rt: &impl Abort, alloc: Global, end: &mut AckEnd, pool: &mut Pool) {
    pool.reserve(1).expect(rt, "memory");
    assert!(rt; pool.lives(end.queue()) && pool.len(end.queue()) < MOST_UNACKNOWLEDGED);
    let stanza = Bytes::from_slice(alloc, b"a").expect(rt, "memory");
    end.put_reserved(pool, stanza)
}

// What a count does: whether it is told to be too high, the answer, and the count that is acknowledged.
fn taken(end: &mut AckEnd, pool: &mut Pool, h: u32) -> (bool, Option<u32>, u32) {
    if !pool.lives(end.queue()) || pool.len(end.queue()) > MOST_UNACKNOWLEDGED {
        return (false, None, 0);
    }
    let told = end.is_too_high(pool, h).is_some();
    let taken = end.ack(pool, h).ok();
    (told, taken, end.acked())
}

// What a count does to an end with two stanzas.
fn counted(rt: &impl Abort, alloc: Global, h: u32) -> (bool, Option<u32>, u32) {
    let mut pool = Pool::new(alloc);
    let mut end = AckEnd::new(pool.make_queue().expect(rt, "memory"));
    for _ in 0..2 {
        put(rt, alloc, &mut end, &mut pool);
    }
    taken(&mut end, &mut pool, h)
}

// Counts, and what they do to an end with two stanzas; the last is one below 0.
static COUNTS: [(u32, (bool, Option<u32>, u32)); 5] = [
    (0, (false, Some(0), 0)),
    (1, (false, Some(1), 1)),
    (2, (false, Some(2), 2)),
    (3, (true, None, 0)),
    (4_294_967_295, (true, None, 0)),
];

#[test]
fn counts_are_taken_or_refused(rt: HostRuntime) {
    for (h, expected) in COUNTS {
        assert!(rt; counted(&rt, rt.alloc(), h) == expected);
    }
}

fn is_text(text: String, expected: &str) -> bool {
    text.as_str() == expected
}

#[test]
fn a_refusal_is_printed(rt: HostRuntime) {
    let fault = TooHigh {
        h: 2,
        send_count: 1,
    };
    let text = format!(in rt.alloc(); "{fault}").expect(&rt, "memory");
    assert!(rt; is_text(text, "2 handled of 1 put"));
}
