//! Scripts over links in memory (RFC 6120, sections 4 to 7; XEP-0198; XEP-0313).
use crate::sync_texts::{
    ASKED, AUTH, BIND, BOUND, CHALLENGE, CLOSING, EMPTY_PAGE, ENABLE, ENABLED, HANDLED, HEADER,
    MESSAGE, NO_PAGE, OFFERS, ONLINE, OPENED, PAGE, REOPENED, RESPONSE, SAID, SCRIPT, SUCCESS,
    SYNCED, SYNCED_WITHOUT, TOO_HIGH, TOO_HIGH_PUT, WRONG_SUCCESS,
};
use base_io::{Bytes, Numbers};
use cmd_schedule::LineWhy;
use cmd_sync::{LinkFailure, PeerFailure, SentCondition, SyncFault, sync};
use net_memory::{Links, MemoryDialer, MemoryEntropy, MemoryLink, Shelf};
use std::alloc::Global;
use std::process::Abort;

type Texts = &'static [&'static str];

// How a script is done, over a dialer with one link.
struct Run {
    script: &'static str,
    // what the server sends, how many bytes the link gives and takes at a time, and which call fails, from 1, or 0
    came: Texts,
    step: usize,
    fails: u64,
    // what was written on the link, where it was given back
    put: Option<Texts>,
    // what is written of the script, or why it is not done
    answer: Result<&'static str, SyncFault>,
}

static DONE: [Run; 3] = [
    // a message and a page
    Run {
        script: SCRIPT,
        came: &[
            OPENED, OFFERS, CHALLENGE, SUCCESS, REOPENED, BOUND, ENABLED, HANDLED, PAGE,
        ],
        step: 7,
        fails: 0,
        put: Some(&[
            HEADER, AUTH, RESPONSE, HEADER, BIND, ENABLE, ONLINE, SAID, ASKED, CLOSING,
        ]),
        answer: Ok(SYNCED),
    },
    // the same, byte by byte
    Run {
        script: SCRIPT,
        came: &[
            OPENED, OFFERS, CHALLENGE, SUCCESS, REOPENED, BOUND, ENABLED, HANDLED, PAGE,
        ],
        step: 1,
        fails: 0,
        put: Some(&[
            HEADER, AUTH, RESPONSE, HEADER, BIND, ENABLE, ONLINE, SAID, ASKED, CLOSING,
        ]),
        answer: Ok(SYNCED),
    },
    // behind the count that does the last line, the same piece brings what can't be read
    Run {
        script: MESSAGE,
        came: &[
            OPENED, OFFERS, CHALLENGE, SUCCESS, REOPENED, BOUND, ENABLED, HANDLED, "x",
        ],
        step: 7,
        fails: 0,
        put: Some(&[HEADER, AUTH, RESPONSE, HEADER, BIND, ENABLE, ONLINE, SAID]),
        answer: Ok(SYNCED_WITHOUT),
    },
];

static NOT_DONE: [Run; 9] = [
    // the same, where a catch-up is still to be done
    Run {
        script: SCRIPT,
        came: &[
            OPENED, OFFERS, CHALLENGE, SUCCESS, REOPENED, BOUND, ENABLED, HANDLED, "x",
        ],
        step: 7,
        fails: 0,
        put: Some(&[HEADER, AUTH, RESPONSE, HEADER, BIND, ENABLE, ONLINE, SAID]),
        answer: Err(SyncFault::Peer(PeerFailure::Framing)),
    },
    // a read fails in the server's header
    Run {
        script: SCRIPT,
        came: &[OPENED, OFFERS, CHALLENGE, SUCCESS, REOPENED, BOUND, ENABLED],
        step: 7,
        fails: 40,
        put: Some(&[HEADER]),
        answer: Err(SyncFault::Link(LinkFailure::Read)),
    },
    // the write of the end of the stream fails
    Run {
        script: SCRIPT,
        came: &[
            OPENED, OFFERS, CHALLENGE, SUCCESS, REOPENED, BOUND, ENABLED, HANDLED, PAGE,
        ],
        step: 7,
        fails: 436,
        put: Some(&[
            HEADER, AUTH, RESPONSE, HEADER, BIND, ENABLE, ONLINE, SAID, ASKED,
        ]),
        answer: Err(SyncFault::Link(LinkFailure::Write)),
    },
    // the server ends the stream
    Run {
        script: SCRIPT,
        came: &[OPENED, CLOSING],
        step: 7,
        fails: 0,
        put: Some(&[HEADER]),
        answer: Err(SyncFault::Peer(PeerFailure::Closed)),
    },
    // the server has another password
    Run {
        script: SCRIPT,
        came: &[OPENED, OFFERS, CHALLENGE, WRONG_SUCCESS],
        step: 7,
        fails: 0,
        put: Some(&[HEADER, AUTH, RESPONSE]),
        answer: Err(SyncFault::Peer(PeerFailure::BadVerifier)),
    },
    // the server handled more than was put
    Run {
        script: SCRIPT,
        came: &[
            OPENED, OFFERS, CHALLENGE, SUCCESS, REOPENED, BOUND, ENABLED, TOO_HIGH,
        ],
        step: 7,
        fails: 0,
        put: Some(&[
            HEADER,
            AUTH,
            RESPONSE,
            HEADER,
            BIND,
            ENABLE,
            ONLINE,
            SAID,
            TOO_HIGH_PUT,
        ]),
        answer: Err(SyncFault::Peer(PeerFailure::TooHigh)),
    },
    // the page is refused
    Run {
        script: SCRIPT,
        came: &[
            OPENED, OFFERS, CHALLENGE, SUCCESS, REOPENED, BOUND, ENABLED, HANDLED, NO_PAGE,
        ],
        step: 7,
        fails: 0,
        put: Some(&[
            HEADER, AUTH, RESPONSE, HEADER, BIND, ENABLE, ONLINE, SAID, ASKED,
        ]),
        answer: Err(SyncFault::Peer(PeerFailure::Refused(SentCondition::ItemNotFound))),
    },
    // an empty page is not the last one
    Run {
        script: SCRIPT,
        came: &[
            OPENED, OFFERS, CHALLENGE, SUCCESS, REOPENED, BOUND, ENABLED, HANDLED, EMPTY_PAGE,
        ],
        step: 7,
        fails: 0,
        put: Some(&[
            HEADER, AUTH, RESPONSE, HEADER, BIND, ENABLE, ONLINE, SAID, ASKED,
        ]),
        answer: Err(SyncFault::Peer(PeerFailure::NoAdvance)),
    },
    // a line of the script is wrong
    Run {
        script: "xmpp-sync 1\naccount alice@chat.example pw-alice phone\ncatchup 0\n",
        came: &[OPENED, OFFERS, CHALLENGE, SUCCESS, REOPENED, BOUND, ENABLED],
        step: 7,
        fails: 0,
        put: None,
        answer: Err(SyncFault::BadLine {
            line: 3,
            why: LineWhy::Number,
        }),
    },
];

// Texts, joined.
fn joined(rt: &impl Abort, alloc: Global, texts: &[&str]) -> Bytes {
    let mut bytes = Bytes::new(alloc);
    for text in texts {
        bytes.append(text.as_bytes()).expect(rt, "memory");
    }
    bytes
}

fn are_joined(texts: &[&str], bytes: &[u8]) -> bool {
    let mut rest = bytes;
    for text in texts {
        match rest.strip_prefix(text.as_bytes()) {
            Some(more) => rest = more,
            None => return false,
        }
    }
    rest.is_empty()
}

// One number.
fn one(rt: &impl Abort, alloc: Global, number: u64) -> Numbers {
    let mut numbers = Numbers::new(alloc);
    numbers.push(number).expect(rt, "memory");
    numbers
}

// A dialer with one link.
fn dialer(rt: &impl Abort, alloc: Global, came: Bytes, step: usize, fails: u64) -> MemoryDialer {
    let link = MemoryLink::new(alloc, came, step.max(1), one(rt, alloc, fails));
    let mut links = Links::new(alloc);
    links.push(link.expect(rt, "memory")).expect(rt, "memory");
    MemoryDialer::new(links, Numbers::new(alloc))
}

// Whether a script came to what is wanted.
fn is_answer(run: &Run, given: Result<Bytes, SyncFault>) -> bool {
    match (&given, run.answer) {
        (Ok(given), Ok(wanted)) => given.as_slice() == wanted.as_bytes(),
        (Err(given), Err(wanted)) => *given == wanted,
        _ => false,
    }
}

// Whether a link was given back with this written on it.
fn has_put(given: &Shelf, put: Option<Texts>) -> bool {
    match (given.link(), put) {
        (Some(link), Some(put)) => are_joined(put, link.written()),
        (None, None) => true,
        _ => false,
    }
}

// What comes of a run.
fn given_of(alloc: Global, run: &Run, dialer: &mut MemoryDialer) -> Result<Bytes, SyncFault> {
    let mut entropy = MemoryEntropy::new([0; 24], Numbers::new(alloc));
    sync(alloc, run.script.as_bytes(), 5222, dialer, &mut entropy)
}

// Whether a run goes as it should.
fn goes_well(alloc: Global, run: &Run, mut dialer: MemoryDialer) -> bool {
    let given = given_of(alloc, run, &mut dialer);
    is_answer(run, given) && has_put(dialer.given(), run.put)
}

fn dialer_of(rt: &impl Abort, alloc: Global, run: &Run) -> MemoryDialer {
    dialer(rt, alloc, joined(rt, alloc, run.came), run.step, run.fails)
}

#[test]
fn scripts_are_done(rt: HostRuntime) {
    let alloc = rt.alloc();
    for run in &DONE {
        assert!(rt; goes_well(alloc, run, dialer_of(&rt, alloc, run)));
    }
}

#[test]
fn scripts_are_not_done_for_a_cause(rt: HostRuntime) {
    let alloc = rt.alloc();
    for run in &NOT_DONE {
        assert!(rt; goes_well(alloc, run, dialer_of(&rt, alloc, run)));
    }
}
