//! The texts of wire reports of both versions with a line of each kind, and lines that are made by copying or moving.
use base_io::{NoMemory, Text};
use cmd_report::{
    AccountLine, AccountLines, ConnEnd, ConnLine, ConnLines, DeviceLine, DeviceLines, EntryLine,
    EntryLines, HeldLine, HeldLines, LoggedLine, LoggedLines, PageLine, PageLines, RefusedLine,
    RefusedLines, RefusedWhy, Report, SaidLine, SaidLines, SaidMark, TakeLine, TakeLines,
    UnderwayLine, UnderwayLines, bare_address, copied_entry_line, copied_logged_line,
    copied_page_line, full_address, logged_lines, origin_of, report_text,
};
use cmd_schedule::Version;
use mam_archive::{ArchivedMessage, Bodies, Body, Entry};
use mam_log::{LogEntries, LogEntry, Tile, Tiles};
use std::alloc::Global;
use std::process::Abort;

static REPORT: &str = "xmpp-report 1 wire
take phone 2 1 bob
account alice 1
entry 0000000000000001 1500 alice@chat.example/phone bob@chat.example phone.2.1 hi bob
conn 1 phone 900 850 2400 2310 cut
conn 2 phone 900 850 2400 2310 left
conn 3 phone 900 850 2400 2310 shut
conn 4 phone 900 850 2400 2310 open
device phone alice 2 no
said 2 1 acknowledged bob hi
said 2 1 waiting bob hi
said 2 1 undecided bob hi
refused 4 NotBound
refused 4 OutboxFull
refused 4 Underway
page 0000000000000001 0 complete 1
underway q3 12
logged 0000000000000001 1500 alice@chat.example/phone bob@chat.example phone.2.1 hi bob
held 0000000000000002
end
";

static SECOND_REPORT: &str = "xmpp-report 2 wire 7
take phone 2 1 bob 1500
account alice 1 3
entry 0000000000000001 1500 alice@chat.example/phone bob@chat.example phone.2.1 hi bob
conn 1 phone 900 850 2400 2310 cut
conn 2 phone 900 850 2400 2310 left
conn 3 phone 900 850 2400 2310 shut
conn 4 phone 900 850 2400 2310 open
device phone alice 2 no
said 2 1 acknowledged bob hi
said 2 1 waiting bob hi
said 2 1 undecided bob hi
refused 4 NotBound
refused 4 OutboxFull
refused 4 Underway
page 0000000000000001 0 complete 1
underway q3 12
logged 0000000000000001 1500 alice@chat.example/phone bob@chat.example phone.2.1 hi bob
break
logged 0000000000000001 1500 alice@chat.example/phone bob@chat.example phone.2.1 hi bob
held 0000000000000002
end
";

fn text(rt: &impl Abort, alloc: Global, characters: &str) -> Text {
    Text::from_str(alloc, characters).expect(rt, "memory")
}

fn bodies(rt: &impl Abort, alloc: Global) -> Bodies {
    let mut bodies = Bodies::new(alloc);
    bodies
        .push(Body {
            text: text(rt, alloc, "hi bob"),
            lang: Text::new(alloc),
        })
        .expect(rt, "memory");
    bodies
}

fn message(rt: &impl Abort, alloc: Global) -> ArchivedMessage {
    ArchivedMessage {
        stamp: 1500,
        from: full_address(alloc, "alice", "phone").expect(rt, "memory"),
        to: bare_address(alloc, "bob").expect(rt, "memory"),
        origin: origin_of(alloc, "phone", 2, 1).expect(rt, "memory"),
        bodies: bodies(rt, alloc),
        normal: false,
        id: Text::new(alloc),
    }
}

// An archive's entry.
fn entry(rt: &impl Abort, alloc: Global) -> Entry {
    Entry::new(alloc, 1, message(rt, alloc)).expect(rt, "memory")
}

fn greeting(rt: &impl Abort, alloc: Global) -> EntryLine {
    copied_entry_line(alloc, &entry(rt, alloc)).expect(rt, "memory")
}

fn known(rt: &impl Abort, alloc: Global) -> LogEntry {
    LogEntry {
        id: text(rt, alloc, "0000000000000001"),
        entry: entry(rt, alloc),
    }
}

// Two pages of one entry each, both asked for from the start.
fn tiles(rt: &impl Abort, alloc: Global) -> Tiles {
    let mut tiles = Tiles::new(alloc);
    for _ in 0..2 {
        tiles
            .push(Tile {
                after: None,
                count: 1,
                complete: false,
                total: 1,
            })
            .expect(rt, "memory");
    }
    tiles
}

fn known_twice(rt: &impl Abort, alloc: Global) -> LogEntries {
    let mut entries = LogEntries::new(alloc);
    for _ in 0..2 {
        entries.push(known(rt, alloc)).expect(rt, "memory");
    }
    entries
}

// Of two pages, the second behind a break.
fn logged_after_break(rt: &impl Abort, alloc: Global) -> LoggedLines {
    logged_lines(alloc, &tiles(rt, alloc), known_twice(rt, alloc)).expect(rt, "memory")
}

fn logged_line(rt: &impl Abort, alloc: Global) -> LoggedLine {
    copied_logged_line(alloc, &known(rt, alloc), false).expect(rt, "memory")
}

fn logged_once(rt: &impl Abort, alloc: Global) -> LoggedLines {
    let mut lines = LoggedLines::new(alloc);
    lines.push(logged_line(rt, alloc)).expect(rt, "memory");
    lines
}

fn logged(rt: &impl Abort, alloc: Global, version: Version) -> LoggedLines {
    match version {
        Version::One => logged_once(rt, alloc),
        Version::Two { .. } => logged_after_break(rt, alloc),
    }
}

fn takes(rt: &impl Abort, alloc: Global, version: Version) -> TakeLines {
    let mut lines = TakeLines::new(alloc);
    lines
        .push(TakeLine {
            device: text(rt, alloc, "phone"),
            epoch: 2,
            n: 1,
            account: text(rt, alloc, "bob"),
            moment: match version {
                Version::One => None,
                Version::Two { .. } => Some(1500),
            },
        })
        .expect(rt, "memory");
    lines
}

fn accounts(rt: &impl Abort, alloc: Global) -> AccountLines {
    let mut entries = EntryLines::new(alloc);
    entries.push(greeting(rt, alloc)).expect(rt, "memory");
    let mut lines = AccountLines::new(alloc);
    lines
        .push(AccountLine {
            name: text(rt, alloc, "alice"),
            count: 1,
            last: 3,
            entries,
        })
        .expect(rt, "memory");
    lines
}

fn conns(rt: &impl Abort, alloc: Global) -> ConnLines {
    let mut lines = ConnLines::new(alloc);
    for (k, end) in [
        (1, ConnEnd::Cut),
        (2, ConnEnd::Left),
        (3, ConnEnd::Shut),
        (4, ConnEnd::Open),
    ] {
        lines
            .push(ConnLine {
                k,
                device: text(rt, alloc, "phone"),
                upput: 900,
                uptaken: 850,
                downput: 2400,
                downtaken: 2310,
                end,
            })
            .expect(rt, "memory");
    }
    lines
}

fn said(rt: &impl Abort, alloc: Global) -> SaidLines {
    let mut lines = SaidLines::new(alloc);
    for state in [
        SaidMark::Acknowledged,
        SaidMark::Waiting,
        SaidMark::Undecided,
    ] {
        lines
            .push(SaidLine {
                epoch: 2,
                n: 1,
                state,
                to: text(rt, alloc, "bob"),
                text: text(rt, alloc, "hi"),
            })
            .expect(rt, "memory");
    }
    lines
}

fn refused(rt: &impl Abort, alloc: Global) -> RefusedLines {
    let mut lines = RefusedLines::new(alloc);
    for why in [
        RefusedWhy::NotBound,
        RefusedWhy::OutboxFull,
        RefusedWhy::Underway,
    ] {
        lines
            .push(RefusedLine { line: 4, why })
            .expect(rt, "memory");
    }
    lines
}

fn pages(rt: &impl Abort, alloc: Global) -> PageLines {
    let mut lines = PageLines::new(alloc);
    let tile = Tile {
        after: Some(text(rt, alloc, "0000000000000001")),
        count: 0,
        complete: true,
        total: 1,
    };
    lines
        .push(copied_page_line(alloc, &tile).expect(rt, "memory"))
        .expect(rt, "memory");
    lines
}

fn underway(rt: &impl Abort, alloc: Global) -> UnderwayLines {
    let mut lines = UnderwayLines::new(alloc);
    lines
        .push(UnderwayLine {
            queryid: text(rt, alloc, "q3"),
            got: 12,
        })
        .expect(rt, "memory");
    lines
}

fn held(rt: &impl Abort, alloc: Global) -> HeldLines {
    let mut lines = HeldLines::new(alloc);
    lines
        .push(HeldLine {
            id: text(rt, alloc, "0000000000000002"),
        })
        .expect(rt, "memory");
    lines
}

fn devices(rt: &impl Abort, alloc: Global, version: Version) -> DeviceLines {
    let mut lines = DeviceLines::new(alloc);
    lines
        .push(DeviceLine {
            name: text(rt, alloc, "phone"),
            account: text(rt, alloc, "alice"),
            epoch: 2,
            settled: false,
            said: said(rt, alloc),
            refused: refused(rt, alloc),
            pages: pages(rt, alloc),
            underway: underway(rt, alloc),
            logged: logged(rt, alloc, version),
            held: held(rt, alloc),
        })
        .expect(rt, "memory");
    lines
}

// A report with a line of each kind.
fn report(rt: &impl Abort, alloc: Global, version: Version) -> Report {
    Report {
        version,
        wire: true,
        takes: takes(rt, alloc, version),
        accounts: accounts(rt, alloc),
        conns: conns(rt, alloc),
        devices: devices(rt, alloc, version),
    }
}

// Whether a report has this text.
pub(crate) fn has_text(alloc: Global, report: &Report, wanted: &str) -> Result<bool, NoMemory> {
    Ok(report_text(alloc, report)?.as_slice() == wanted.as_bytes())
}

// Whether the report with a line of each kind has this text.
fn is_printed(rt: &impl Abort, alloc: Global, version: Version, wanted: &str) -> bool {
    has_text(alloc, &report(rt, alloc, version), wanted).expect(rt, "memory")
}

#[test]
fn prints_a_line_of_each_kind(rt: HostRuntime) {
    for (version, wanted) in [
        (Version::One, REPORT),
        (Version::Two { keep: 7 }, SECOND_REPORT),
    ] {
        assert!(rt; is_printed(&rt, rt.alloc(), version, wanted));
    }
}
