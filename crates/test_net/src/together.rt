//! Two connections at the same time, at moment 5 and with random bytes that are zeros (RFC 6120).
use crate::gated::{GatedLink, Written};
use base_io::Numbers;
use net_hub::{HubFault, serve_together};
use net_memory::{MemoryClock, MemoryEntropy, MemoryHalvesDoor};
use net_owner::MemorySpawner;
use net_traits::GivenBack;
use std::alloc::Global;
use std::sync::atomic::{AtomicU64, Ordering};
use std::sync::{Arc, Wait};
use std::test::Fail;
use std::thread::Threads;

static ACCOUNTS: &str = "xmpp-accounts 1\ndomain chat.example\naccount alice pw-alice\n";

// Which thread and which draw of random bytes is refused, whether each connection was answered, how many links came back to the
// door, where that came back itself, and what was told. The acceptor is the first thread that is started, and the reader of the
// first connection the second. The first connection waits for the other.
static CASES: [(u64, u64, bool, bool, Option<u64>, Option<HubFault>); 4] = [
    (0, 0, true, true, Some(2), None),
    (1, 0, false, false, None, Some(HubFault::NoWorker)),
    (2, 0, false, true, Some(1), Some(HubFault::NoWorker)),
    (0, 2, false, false, Some(1), Some(HubFault::EntropyFault)),
];

// Two links: the first gives a header once something was written on the second.
fn door(
    alloc: Global,
    first: &Written,
    second: &Written,
) -> Result<MemoryHalvesDoor<GatedLink>, Fail> {
    let mut links = Vec::new(alloc);
    links.push(GatedLink {
        waits_for: Some(Arc::try_clone(second)?),
        written: Arc::try_clone(first)?,
    })?;
    links.push(GatedLink {
        waits_for: None,
        written: Arc::try_clone(second)?,
    })?;
    Ok(MemoryHalvesDoor::new(alloc, links, Numbers::new(alloc)))
}

// One number.
fn one(alloc: Global, number: u64) -> Result<Numbers, Fail> {
    let mut numbers = Numbers::new(alloc);
    numbers.push(number)?;
    Ok(numbers)
}

// How many links came back, of two at most.
fn count<T>(given: &GivenBack<T>) -> u64 {
    match given.before() {
        None => 0,
        Some(before) if before.last().is_some() => 2,
        Some(_) => 1,
    }
}

// What came of two connections: how many bytes were written on each, how many links came back to the door, where that came back
// itself, and what was told.
fn serve<R: Threads + Wait + Copy + Send + 'static>(
    rt: &R,
    alloc: Global,
    fails: u64,
    draw_fails: u64,
) -> Result<(u64, u64, Option<u64>, Option<HubFault>), Fail> {
    let first = Arc::new(alloc, AtomicU64::new(0))?;
    let second = Arc::new(alloc, AtomicU64::new(0))?;
    let door = door(alloc, &first, &second)?;
    let mut spawner = MemorySpawner::new(*rt, one(alloc, fails)?);
    let mut entropy = MemoryEntropy::new([0; 24], one(alloc, draw_fails)?);
    let mut clock = MemoryClock::new(5);
    let (served, door) = serve_together(
        rt,
        alloc,
        ACCOUNTS.as_bytes(),
        5222,
        2,
        door,
        &mut clock,
        &mut entropy,
        &mut spawner,
    );
    let (first, second) = (first.load(Ordering::SeqCst), second.load(Ordering::SeqCst));
    let back = match &door {
        Some(door) => Some(count(door.given())),
        None => None,
    };
    Ok((first, second, back, served.err()))
}

// A connection that is answered gets a header and the features.
#[test]
fn two_are_served_at_the_same_time(rt: HostRuntime) -> Result<(), Fail> {
    for (fails, draw_fails, one, two, links, told) in CASES {
        let (first, second, back, fault) = serve(&rt, rt.alloc(), fails, draw_fails)?;
        assert!(rt; (first > 200, second > 200) == (one, two) && back == links && fault == told);
    }
    Ok(())
}
