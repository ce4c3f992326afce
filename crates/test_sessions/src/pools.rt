//! Each call of the queues once, and the nodes of long queues.
ghost use Rattle.std.specs.Prelude.{◌≡◌};

use base_io::Bytes;
use sm_acks::{Pool, QueueId};
use std::alloc::Global;
use std::process::Abort;

// Puts a stanza of one byte in a queue, which lives.
fn put(rt: &impl Abort, alloc: Global, pool: &mut Pool, queue: QueueId, text: u8) {
    pool.reserve(1).expect(rt, "memory");
    assert!(rt; pool.lives(queue));
    let stanza = Bytes::from_slice(alloc, &[text]).expect(rt, "memory");
    pool.push_reserved(queue, stanza)
}

// Two stanzas in a queue and one in another.
fn fill(rt: &impl Abort, alloc: Global, pool: &mut Pool)
    requires { pool.old.made ≡ 0 }
{
    let _ = pool.make_queue().expect(rt, "memory");
    let _ = pool.make_queue().expect(rt, "memory");
    for (queue, text) in [(1, b'a'), (2, b'c'), (1, b'b')] {
        put(rt, alloc, pool, queue, text);
    }
}

// The stanza at a place, where the queue lives.
fn text_at(pool: &Pool, queue: QueueId, i: u64) -> Option<u8> {
    if pool.lives(queue) {
        pool.nth(queue, i)?.as_slice().first().copied()
    } else {
        None
    }
}

fn hand_over(rt: &impl Abort, pool: &mut Pool) {
    assert!(rt; pool.lives(1) && pool.lives(2));
    pool.hand_over(1, 2)
}

// The second queue after the first one was handed over to it, and the first one.
fn handed(rt: &impl Abort, alloc: Global) -> [Option<u8>; 4] {
    let mut pool = Pool::new(alloc);
    fill(rt, alloc, &mut pool);
    hand_over(rt, &mut pool);
    [
        text_at(&pool, 2, 0),
        text_at(&pool, 2, 1),
        text_at(&pool, 2, 2),
        text_at(&pool, 1, 0),
    ]
}

// The first queue after its oldest stanza was taken, and the second one after it was dropped.
fn dropped(pool: &mut Pool) -> (Option<u8>, u64, bool) {
    if !pool.lives(1) || !pool.lives(2) {
        return (None, 0, true);
    }
    let _ = pool.pop_front(1);
    let left = pool.len(1);
    pool.drop_queue(2);
    (text_at(pool, 1, 0), left, pool.lives(2))
}

fn taken(rt: &impl Abort, alloc: Global) -> (Option<u8>, u64, bool) {
    let mut pool = Pool::new(alloc);
    fill(rt, alloc, &mut pool);
    dropped(&mut pool)
}

#[test]
fn queues_are_handed_over_and_dropped(rt: HostRuntime) {
    let texts = handed(&rt, rt.alloc());
    let left = taken(&rt, rt.alloc());
    assert!(rt;
        texts == [Some(b'c'), Some(b'a'), Some(b'b'), None] && left == (Some(b'b'), 1, false)
    );
}

fn append_second(rt: &impl Abort, pool: &Pool, out: &mut Bytes) {
    assert!(rt; pool.lives(2));
    pool.append_from(2, 1, out).expect(rt, "memory")
}

// The bytes of the second queue but its first stanza's, after the first one was handed over to it.
fn appended(rt: &impl Abort, alloc: Global) -> Bytes {
    let mut pool = Pool::new(alloc);
    fill(rt, alloc, &mut pool);
    hand_over(rt, &mut pool);
    let mut out = Bytes::new(alloc);
    append_second(rt, &pool, &mut out);
    out
}

fn is_bytes(bytes: Bytes, expected: &[u8]) -> bool {
    bytes.as_slice() == expected
}

#[test]
fn queues_are_read_in_order(rt: HostRuntime) {
    assert!(rt; is_bytes(appended(&rt, rt.alloc()), b"ab"));
}

// How many stanzas a long queue has.
const LONG: u32 = 10_000;

fn lengthen(rt: &impl Abort, alloc: Global, pool: &mut Pool, queue: QueueId) {
    for _ in 0..LONG {
        put(rt, alloc, pool, queue, b'a');
    }
}

// Three long queues.
fn fill_three(rt: &impl Abort, alloc: Global, pool: &mut Pool)
    requires { pool.old.made ≡ 0 }
{
    pool.reserve(3 * LONG).expect(rt, "memory");
    let _ = pool.make_queue().expect(rt, "memory");
    let _ = pool.make_queue().expect(rt, "memory");
    let _ = pool.make_queue().expect(rt, "memory");
    for queue in [1, 2, 3] {
        lengthen(rt, alloc, pool, queue);
    }
}

// How many nodes there are after a queue was handed over.
fn nodes_handed(pool: &mut Pool, from: QueueId, to: QueueId) -> u64 {
    if from != to && pool.lives(from) && pool.lives(to) {
        pool.hand_over(from, to);
    }
    pool.nodes()
}

// How many nodes there are after a queue was dropped.
fn nodes_left(pool: &mut Pool, queue: QueueId) -> u64 {
    if pool.lives(queue) {
        pool.drop_queue(queue);
    }
    pool.nodes()
}

// The nodes of three long queues, and after each of three hand-overs in a ring and of three drops.
fn nodes_along(pool: &mut Pool) -> [u64; 7] {
    [
        pool.nodes(),
        nodes_handed(pool, 1, 2),
        nodes_handed(pool, 2, 3),
        nodes_handed(pool, 3, 1),
        nodes_left(pool, 1),
        nodes_left(pool, 2),
        nodes_left(pool, 3),
    ]
}

fn nodes_of_three(rt: &impl Abort, alloc: Global) -> [u64; 7] {
    let mut pool = Pool::new(alloc);
    fill_three(rt, alloc, &mut pool);
    nodes_along(&mut pool)
}

fn stay(nodes: [u64; 7]) -> bool {
    nodes[0] >= 30_000 && nodes == [nodes[0]; 7]
}

#[test]
fn nodes_stay_where_long_queues_move(rt: HostRuntime) {
    assert!(rt; stay(nodes_of_three(&rt, rt.alloc())));
}
