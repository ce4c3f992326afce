//! A connection that is served over a link in memory, at a moment and with random bytes that are known (RFC 6120; RFC 6121).
//! A journal that is written is done again: it leads to the archives that it ends with.
use crate::kept::{KeptLink, KeptOutgoing};
use crate::served_texts::{
    ALICE, ANSWERS, BAD_PIECE, BEGUN, BEGUN_KEEPING, BOTH, BOUND, GONE, HEADER, HEADER_PIECES,
    LOGGED_IN, LOGIN, LOGIN_PIECE, MORE_PIECE, NOTHING_KEPT, ONE_KEPT, OPENED, REFUSED, SESSION,
    SESSION_PIECES, TALK, TALK_PIECES,
};
use base_io::{Bytes, NoMemory, Numbers};
use cmd_rerun::rerun_bytes;
use cmd_schedule::LineWhy;
use net_hub::{HubFault, serve_together};
use net_memory::{MemoryClock, MemoryEntropy, MemoryHalvesDoor};
use net_owner::MemorySpawner;
use net_traits::GivenBack;
use std::alloc::Global;
use std::sync::Wait;
use std::test::Fail;
use std::thread::Threads;

type Texts = &'static [&'static str];

// How connections are served, over a door with one link.
struct Run {
    accounts: &'static str,
    connections: u32,
    // what the link has to give, how many bytes it gives and takes at a time, and which read and which write fail, from 1, or 0
    came: Texts,
    step: usize,
    read_fails: u64,
    write_fails: u64,
    // which draw of random bytes fails, from 1, or 0
    draw_fails: u64,
    // what was written on the link, where it was given back
    put: Option<Texts>,
    // a journal, by its events and its end, or a refusal
    answer: Result<(Texts, &'static str), HubFault>,
}

static SESSIONS: [Run; 3] = [
    // a link that ends at once
    Run {
        accounts: ALICE,
        connections: 1,
        came: &[],
        step: 1,
        read_fails: 0,
        write_fails: 0,
        draw_fails: 0,
        put: Some(&[]),
        answer: Ok((&[BEGUN, GONE], NOTHING_KEPT)),
    },
    // a usual client's session
    Run {
        accounts: ALICE,
        connections: 1,
        came: &[LOGIN, SESSION],
        step: 403,
        read_fails: 0,
        write_fails: 0,
        draw_fails: 0,
        put: Some(&[OPENED, LOGGED_IN, ANSWERS]),
        answer: Ok((&[BEGUN, LOGIN_PIECE, SESSION_PIECES, GONE], NOTHING_KEPT)),
    },
    // messages, one of them with texts that would be lines of their own
    Run {
        accounts: BOTH,
        connections: 1,
        came: &[LOGIN, TALK],
        step: 403,
        read_fails: 0,
        write_fails: 0,
        draw_fails: 0,
        put: Some(&[OPENED, LOGGED_IN, BOUND]),
        answer: Ok((&[BEGUN_KEEPING, LOGIN_PIECE, TALK_PIECES, GONE], ONE_KEPT)),
    },
];

static FAILING: [Run; 8] = [
    // the second read fails
    Run {
        accounts: ALICE,
        connections: 1,
        came: &[HEADER],
        step: 10,
        read_fails: 2,
        write_fails: 0,
        draw_fails: 0,
        put: Some(&[]),
        answer: Ok((
            &[BEGUN, "piece 1 5 3c73747265616d3a7374\n", GONE],
            NOTHING_KEPT,
        )),
    },
    // the third write fails
    Run {
        accounts: ALICE,
        connections: 1,
        came: &[HEADER],
        step: 50,
        read_fails: 0,
        write_fails: 3,
        draw_fails: 0,
        put: Some(&[
            "<?xml version='1.0'?><stream:stream from='chat.example' id='0000000000000000000000000001' version='1",
        ]),
        answer: Ok((&[BEGUN, HEADER_PIECES, GONE], NOTHING_KEPT)),
    },
    // the server shuts the connection; the link has more to give
    Run {
        accounts: ALICE,
        connections: 1,
        came: &[HEADER, "<a></b>", "<more/>"],
        step: 124,
        read_fails: 0,
        write_fails: 0,
        draw_fails: 0,
        put: Some(&[OPENED, REFUSED]),
        answer: Ok((&[BEGUN, BAD_PIECE, MORE_PIECE, GONE], NOTHING_KEPT)),
    },
    // the same, and the first write fails
    Run {
        accounts: ALICE,
        connections: 1,
        came: &[HEADER, "<a></b>", "<more/>"],
        step: 124,
        read_fails: 0,
        write_fails: 1,
        draw_fails: 0,
        put: Some(&[]),
        answer: Ok((&[BEGUN, BAD_PIECE, MORE_PIECE, GONE], NOTHING_KEPT)),
    },
    // the same, and the second write fails: what one event puts is written at once, so there is none
    Run {
        accounts: ALICE,
        connections: 1,
        came: &[HEADER, "<a></b>"],
        step: 4096,
        read_fails: 0,
        write_fails: 2,
        draw_fails: 0,
        put: Some(&[OPENED, REFUSED]),
        answer: Ok((&[BEGUN, BAD_PIECE, GONE], NOTHING_KEPT)),
    },
    // the second connection doesn't come
    Run {
        accounts: ALICE,
        connections: 2,
        came: &[HEADER],
        step: 4096,
        read_fails: 0,
        write_fails: 0,
        draw_fails: 0,
        put: Some(&[OPENED]),
        answer: Err(HubFault::LinkFault),
    },
    // no random bytes are drawn
    Run {
        accounts: ALICE,
        connections: 1,
        came: &[HEADER],
        step: 4096,
        read_fails: 0,
        write_fails: 0,
        draw_fails: 1,
        put: None,
        answer: Err(HubFault::EntropyFault),
    },
    // an account stands twice in the file
    Run {
        accounts: "xmpp-accounts 1\ndomain chat.example\naccount alice pw-alice\naccount alice x\n",
        connections: 1,
        came: &[HEADER],
        step: 4096,
        read_fails: 0,
        write_fails: 0,
        draw_fails: 0,
        put: None,
        answer: Err(HubFault::BadLine {
            line: 4,
            why: LineWhy::Twice,
        }),
    },
];

fn number(alloc: Global, n: u64) -> Result<Numbers, NoMemory> {
    let mut list = Numbers::new(alloc);
    list.push(n)?;
    Ok(list)
}

// Texts, joined.
fn joined(alloc: Global, texts: &[&str]) -> Result<Bytes, NoMemory> {
    let mut bytes = Bytes::new(alloc);
    for text in texts {
        bytes.append(text.as_bytes())?;
    }
    Ok(bytes)
}

fn are_joined(texts: &[&str], bytes: &[u8]) -> bool {
    let mut rest = bytes;
    for text in texts {
        match rest.strip_prefix(text.as_bytes()) {
            Some(more) => rest = more,
            None => return false,
        }
    }
    rest.is_empty()
}

// A door with one link.
fn door(alloc: Global, run: &Run) -> Result<MemoryHalvesDoor<KeptLink>, NoMemory> {
    let mut links = Vec::new(alloc);
    links.push(KeptLink {
        bytes: joined(alloc, run.came)?,
        step: run.step,
        read_fails: run.read_fails,
        write_fails: run.write_fails,
    })?;
    Ok(MemoryHalvesDoor::new(alloc, links, Numbers::new(alloc)))
}

// An accounts file with a journal, to be done again.
fn input_of(alloc: Global, accounts: &str, journal: &[u8]) -> Result<Bytes, NoMemory> {
    let mut input = Bytes::from_slice(alloc, accounts.as_bytes())?;
    input.append(b"%%\n")?;
    input.append(journal)?;
    Ok(input)
}

// Whether a journal that is done again leads to these archives.
fn leads_to(alloc: Global, accounts: &str, journal: &[u8], archives: &str) -> bool {
    let Ok(input) = input_of(alloc, accounts, journal) else {
        return false;
    };
    match rerun_bytes(alloc, input) {
        Ok(text) => text.as_slice().ends_with(archives.as_bytes()),
        Err(_) => false,
    }
}

// Whether a journal has these events and this end.
fn is_journal(journal: &[u8], events: &[&str], archives: &str) -> bool {
    match journal.strip_suffix(archives.as_bytes()) {
        Some(front) => are_joined(events, front),
        None => false,
    }
}

// Whether connections were answered so; a journal leads to the archives that it ends with.
fn is_answer(alloc: Global, run: &Run, given: &Result<Bytes, HubFault>) -> bool {
    match (given, run.answer) {
        (Ok(journal), Ok((events, archives))) => {
            is_journal(journal.as_slice(), events, archives)
                && leads_to(alloc, run.accounts, journal.as_slice(), archives)
        }
        (Err(given), Err(wanted)) => *given == wanted,
        _ => false,
    }
}

// Whether a link was given back with this written on it.
fn has_put<I>(given: &GivenBack<(I, KeptOutgoing)>, put: Option<Texts>) -> bool {
    match (given.last(), put) {
        (Some((_, outgoing)), Some(put)) => are_joined(put, outgoing.written()),
        (None, None) => true,
        _ => false,
    }
}

// Whether a run goes as it should.
fn goes_well<R: Threads + Wait + Copy + Send + 'static>(
    rt: &R,
    alloc: Global,
    run: &Run,
) -> Result<bool, NoMemory> {
    let door = door(alloc, run)?;
    let mut clock = MemoryClock::new(5);
    let mut entropy = MemoryEntropy::new([0; 24], number(alloc, run.draw_fails)?);
    let mut spawner = MemorySpawner::new(*rt, Numbers::new(alloc));
    let (given, door) = serve_together(
        rt,
        alloc,
        run.accounts.as_bytes(),
        5222,
        run.connections,
        door,
        &mut clock,
        &mut entropy,
        &mut spawner,
    );
    let put = match &door {
        Some(door) => has_put(door.given(), run.put),
        None => false,
    };
    Ok(put && is_answer(alloc, run, &given))
}

#[test]
fn sessions_are_served(rt: HostRuntime) -> Result<(), Fail> {
    for run in &SESSIONS {
        assert!(rt; goes_well(&rt, rt.alloc(), run)?);
    }
    Ok(())
}

#[test]
fn failing_calls_are_told(rt: HostRuntime) -> Result<(), Fail> {
    for run in &FAILING {
        assert!(rt; goes_well(&rt, rt.alloc(), run)?);
    }
    Ok(())
}
