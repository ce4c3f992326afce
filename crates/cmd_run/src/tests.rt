//! Calls over a source, a sink and an outside in memory, whose calls fail where a row says so.
use crate::ended::EndedLink;
use crate::outside::{Outside, drop_outside};
use crate::running::run;
use crate::texts::{HELP, VERSION};
use base_io::{Bytes, MemorySink, MemorySource, NoMemory, Numbers};
use net_memory::{Links, MemoryClock, MemoryDialer, MemoryEntropy, MemoryHalvesDoor, MemoryLink};
use net_owner::MemorySpawner;
use std::alloc::Global;
use std::sync::Wait;
use std::test::Fail;
use std::thread::Threads;

const SCHEDULE: &str = "\
xmpp-schedule 1 direct
account alice
account bob
device phone alice
device desk bob
say phone bob hello
say desk alice hi there
say phone alice note to self
catchup phone 2
";

const REPORT: &str = "\
xmpp-report 1 direct
take phone 1 1 bob
take desk 1 1 alice
take phone 1 2 alice
account alice 3
entry 0000000000000001 0 alice@chat.example/phone bob@chat.example phone.1.1 hello
entry 0000000000000002 0 bob@chat.example/desk alice@chat.example desk.1.1 hi there
entry 0000000000000003 0 alice@chat.example/phone alice@chat.example phone.1.2 note to self
account bob 2
entry 0000000000000001 0 alice@chat.example/phone bob@chat.example phone.1.1 hello
entry 0000000000000002 0 bob@chat.example/desk alice@chat.example desk.1.1 hi there
device phone alice 1 yes
said 1 1 acknowledged bob hello
said 1 2 acknowledged alice note to self
page - 2 more
page 0000000000000002 1 complete 3
logged 0000000000000001 0 alice@chat.example/phone bob@chat.example phone.1.1 hello
logged 0000000000000002 0 bob@chat.example/desk alice@chat.example desk.1.1 hi there
logged 0000000000000003 0 alice@chat.example/phone alice@chat.example phone.1.2 note to self
device desk bob 1 yes
said 1 1 acknowledged alice hi there
end
";

const STREAM: &str =
    "<stream:stream to='chat.example' version='1.0' xmlns='jabber:client' xmlns:stream='http://etherx.jabber.org/streams'><a></a>";

const SUMMARY: &str =
    "xmpp-summary 1\nlines 31\ntakes 0\naccount a0 0\naccount a1 0\naccount a2 0\ndevice d0 1 0 yes\ndevice d1 1 0 yes\ndevice d2 1 0 yes\ndevice d3 1 0 yes\ndevice d4 1 0 yes\ndevice d5 1 0 yes\nend\n";

const ITEMS: &str =
    "<stream:stream to='chat.example' version='1.0' xmlns='jabber:client' xmlns:stream='http://etherx.jabber.org/streams'>\n<a/>\nend\n";

// A connection on which a byte comes that no character has.
const RUN: &str = "\
xmpp-accounts 1
domain chat.example
account alice pw-alice
account bob pw-bob
account o!d ~!\"
%%
xmpp-journal 1
connect 1 1000 000000000000000000000000000000000000000000000000
piece 1 300999 3c73747265616d3a73747265616d20746f3d27636861742e6578616d706c65272076657273696f6e3d273\
12e302720786d6c6e733d276a61626265723a636c69656eff742720786d6c6e733a73747265616d3d27687474703a2f2f657\
46865
gone 1 300999
";

const RUN_AGAIN: &str = "\
xmpp-rerun 1
out 1 3c3f786d6c2076657273696f6e3d27312e30273f3e3c73747265616d3a73747265616d2066726f6d3d27636861742e\
6578616d706c65272069643d2730303030303030303030303030303030303030303030303030303031272076657273696f6e\
3d27312e302720786d6c3a6c616e673d27656e2720786d6c6e733d276a61626265723a636c69656e742720786d6c6e733a73\
747265616d3d27687474703a2f2f6574686572782e6a61626265722e6f72672f73747265616d73273e
out 1 3c73747265616d3a6572726f723e3c756e737570706f727465642d656e636f64696e6720786d6c6e733d2775726e3a\
696574663a706172616d733a786d6c3a6e733a786d70702d73747265616d73272f3e3c2f73747265616d3a6572726f723e
out 1 3c2f73747265616d3a73747265616d3e
shut 1
account alice 0
account bob 0
account o!d 0
end
";

const ACCOUNTS: &str = "\
xmpp-accounts 1
domain chat.example
account alice pw-alice
";

const JOURNAL: &str = "\
xmpp-journal 1
connect 1 5 000000000000000000000000000000000000000000000000
gone 1 5
account alice 0
end
";

const INTENTS: &str = "\
xmpp-intents 1 5
account bob
device pad bob
intent pad bob hi
";

// The device has no session, so its client refuses the message.
const DECIDED: &str = "\
xmpp-report 2 wire 5
account bob 0 0
device pad bob 0 no
refused 4 NotBound
end
intents 1
intent pad 1 fresh bob hi
end
";

const SCRIPT: &str = "\
xmpp-sync 1
account alice@chat.example pw-alice phone
";

// The words, the input, the reading that fails and the writing that fails, from 1 or 0 for none, the status, and what is
// written.
static CALLS: [(&str, &str, u64, u64, u8, &str); 20] = [
    ("replay", SCHEDULE, 0, 0, 0, REPORT),
    (
        "replay",
        "xmpp-schedule 1 direct\nsay nobody bob hi\n",
        0,
        0,
        3,
        "line 2 Unknown\n",
    ),
    ("replay", SCHEDULE, 2, 0, 4, "read fault\n"),
    ("check", STREAM, 0, 0, 0, ITEMS),
    ("check", STREAM, 2, 0, 4, "read fault\n"),
    (
        "replay",
        SCHEDULE,
        0,
        3,
        5,
        "xmpp-report 1 direct\ntake phone 1 1 bob\ntake desk 1 1 alice\ntake phone 1 2 alice\naccount alice 3\nentry 0000000000000001 0 alice@",
    ),
    ("rerun", RUN, 0, 0, 0, RUN_AGAIN),
    ("intents", INTENTS, 0, 0, 0, DECIDED),
    (
        "intents",
        "xmpp-schedule 2 wire 1\n",
        0,
        0,
        3,
        "line 1 Header\n",
    ),
    ("check", "<a", 0, 1, 5, ""),
    ("generate 7 0", "", 1, 0, 0, SUMMARY),
    ("generate 7 10001", "", 1, 0, 2, "words\n"),
    ("--help", "", 1, 0, 0, HELP),
    ("--version", "", 1, 0, 0, VERSION),
    ("reply", "", 1, 0, 2, "words\n"),
    ("serve 5222 1", ACCOUNTS, 0, 0, 0, JOURNAL),
    ("serve 05222 1", ACCOUNTS, 1, 0, 2, "words\n"),
    (
        "serve 5222 1",
        "xmpp-accounts 1\n",
        0,
        0,
        3,
        "line 2 Word\n",
    ),
    ("sync 5222", SCRIPT, 0, 0, 7, "link fault\n"),
    ("sync 65536", SCRIPT, 1, 0, 2, "words\n"),
];

// The words, the input, the calls of door and dialer, the drawing of random bytes and the start of a thread that fail, from 1 or
// 0 for none, the status, and what is written. The first thread takes connections in, the second reads the first of them.
static FAILING: [(&str, &str, u64, u64, u64, u8, &str); 7] = [
    ("serve 5222 1", ACCOUNTS, 1, 0, 0, 7, "link fault\n"),
    ("serve 5222 1", ACCOUNTS, 2, 0, 0, 7, "link fault\n"),
    ("serve 5222 1", ACCOUNTS, 0, 0, 1, 9, "no worker\n"),
    ("serve 5222 1", ACCOUNTS, 0, 0, 2, 9, "no worker\n"),
    ("serve 5222 1", ACCOUNTS, 0, 1, 0, 10, "entropy fault\n"),
    ("sync 5222", SCRIPT, 1, 0, 0, 7, "link fault\n"),
    ("sync 5222", SCRIPT, 0, 1, 0, 10, "entropy fault\n"),
];

// The lines of the journal of two connections that end at once. Which of those between the first and the last two comes first
// is for the threads to decide.
static TWO: [&str; 7] = [
    "xmpp-journal 1",
    "connect 1 5 000000000000000000000000000000000000000000000000",
    "connect 2 5 000000000000000000000000000000000000000000000000",
    "gone 1 5",
    "gone 2 5",
    "account alice 0",
    "end",
];

fn number(alloc: Global, n: u64) -> Result<Numbers, NoMemory> {
    let mut list = Numbers::new(alloc);
    list.push(n)?;
    Ok(list)
}

fn words(alloc: Global, text: &str) -> Result<Vec<String>, NoMemory> {
    let mut list = Vec::new(alloc);
    for word in text.split(' ') {
        list.push(String::from_str(alloc, word)?)?;
    }
    Ok(list)
}

fn source(alloc: Global, input: &str, fails: u64) -> Result<MemorySource, NoMemory> {
    let bytes = Bytes::from_slice(alloc, input.as_bytes())?;
    Ok(MemorySource::new(bytes, 7, number(alloc, fails)?))
}

// A door with so many links, which end at once.
fn door(
    alloc: Global,
    connections: u64,
    fails: u64,
    starves: bool,
) -> Result<MemoryHalvesDoor<EndedLink>, NoMemory> {
    let mut links = Vec::new(alloc);
    for _ in 0..connections {
        links.push(EndedLink { starves })?;
    }
    Ok(MemoryHalvesDoor::new(alloc, links, number(alloc, fails)?))
}

// A dialer with one link, which ends at once.
fn dialer(alloc: Global, fails: u64) -> Result<MemoryDialer, NoMemory> {
    let mut links = Links::new(alloc);
    links.push(MemoryLink::new(alloc, Bytes::new(alloc), 1, number(alloc, 0)?)?)?;
    Ok(MemoryDialer::new(links, number(alloc, fails)?))
}

// Which calls fail: of the sink, of door and dialer, of the random bytes, and of what starts threads; and whether the door has
// no memory for a link.
#[derive(Clone, Copy)]
struct Fails {
    writes: u64,
    ways: u64,
    draws: u64,
    starts: u64,
    starves: bool,
}

const NOTHING_FAILS: Fails = Fails {
    writes: 0,
    ways: 0,
    draws: 0,
    starts: 0,
    starves: false,
};

// The status of a call with these words, and what it writes, where so many connections come in.
fn answer<R: Threads + Wait + Copy + Send + 'static>(
    rt: &R,
    alloc: Global,
    text: &str,
    source: &mut MemorySource,
    connections: u64,
    fails: Fails,
) -> Result<(u8, MemorySink), NoMemory> {
    let words = words(alloc, text)?;
    let mut sink = MemorySink::new(alloc, 64, number(alloc, fails.writes)?);
    let mut outside = Outside {
        door: Some(door(alloc, connections, fails.ways, fails.starves)?),
        dialer: dialer(alloc, fails.ways)?,
        clock: MemoryClock::new(5),
        entropy: MemoryEntropy::new([0; 24], number(alloc, fails.draws)?),
        spawner: MemorySpawner::new(*rt, number(alloc, fails.starts)?),
        cause: None,
    };
    let status = run(rt, alloc, words.as_slice(), source, &mut sink, &mut outside);
    drop_outside(outside);
    Ok((status, sink))
}

#[test]
fn calls_are_answered(rt: HostRuntime) -> Result<(), Fail> {
    for (words, input, read_fails, write_fails, status, written) in CALLS {
        let mut source = source(rt.alloc(), input, read_fails)?;
        let fails = Fails {
            writes: write_fails,
            ..NOTHING_FAILS
        };
        let (ended, sink) = answer(&rt, rt.alloc(), words, &mut source, 1, fails)?;
        assert!(rt; ended == status && sink.written() == written.as_bytes());
    }
    Ok(())
}

#[test]
fn failing_calls_are_answered(rt: HostRuntime) -> Result<(), Fail> {
    for (words, input, ways, draws, starts, status, written) in FAILING {
        let mut source = source(rt.alloc(), input, 0)?;
        let fails = Fails {
            writes: 0,
            ways,
            draws,
            starts,
            starves: false,
        };
        let (ended, sink) = answer(&rt, rt.alloc(), words, &mut source, 1, fails)?;
        assert!(rt; ended == status && sink.written() == written.as_bytes());
    }
    Ok(())
}

// Whether a text has these lines and no other, in any order.
fn has_lines(written: &[u8], lines: &[&str]) -> bool {
    let Ok(text) = str::from_utf8(written) else {
        return false;
    };
    let mut size: usize = 0;
    for line in lines {
        if !text.lines().any(|other| other == *line) {
            return false;
        }
        size = size.saturating_add(line.len()).saturating_add(1);
    }
    size == text.len()
}

#[test]
fn two_connections_are_served(rt: HostRuntime) -> Result<(), Fail> {
    let mut source = source(rt.alloc(), ACCOUNTS, 0)?;
    let (ended, sink) = answer(
        &rt,
        rt.alloc(),
        "serve 5222 2",
        &mut source,
        2,
        NOTHING_FAILS,
    )?;
    assert!(rt; ended == 0 && has_lines(sink.written(), &TWO));
    Ok(())
}

#[test]
fn a_door_that_wants_memory_is_no_link_fault(rt: HostRuntime) -> Result<(), Fail> {
    let mut source = source(rt.alloc(), ACCOUNTS, 0)?;
    let fails = Fails {
        starves: true,
        ..NOTHING_FAILS
    };
    let (ended, sink) = answer(&rt, rt.alloc(), "serve 5222 1", &mut source, 1, fails)?;
    assert!(rt; ended == 6 && sink.written().is_empty());
    Ok(())
}
