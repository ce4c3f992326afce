//! Logs: pages that are taken over, messages that are held, and refusals; and the printed texts of archives, pages and logs.
use crate::archives::{entry, text};
use base_io::Text;
use mam_archive::ArchiveFault;
use mam_log::{BeginFault, FinFault, Log, LogEntry, PageOutcome, RestartFault, ResultFault};
use mam_pages::{Fin, PageFault};
use std::alloc::Global;
use std::process::Abort;

fn logged(rt: &impl Abort, alloc: Global, id: &str) -> LogEntry {
    LogEntry {
        id: text(rt, alloc, id),
        entry: entry(rt, alloc, 7, ("bob@a", "romeo@a")),
    }
}

/// The end of a page whose last result has this id.
fn fin(rt: &impl Abort, alloc: Global, last: &str, complete: bool) -> Fin {
    Fin {
        complete,
        first: None,
        first_index: 0,
        last: Some(text(rt, alloc, last)),
        count: 2,
    }
}

fn put(rt: &impl Abort, alloc: Global, log: &mut Log, id: &str) {
    log.result("q", logged(rt, alloc, id))
        .expect(rt, "a result")
}

/// Begins a page of two, and adds results with these ids.
fn begin(rt: &impl Abort, alloc: Global, log: &mut Log, ids: &[&str]) {
    log.begin(alloc, text(rt, alloc, "q"), 2)
        .expect(rt, "a page");
    for id in ids {
        put(rt, alloc, log, id);
    }
}

/// Whether the page is complete at its end, or an id repeats.
fn end(rt: &impl Abort, alloc: Global, log: &mut Log, last: &str) -> bool {
    match log.fin(alloc, "q", &fin(rt, alloc, last, true)) {
        Ok(outcome) => outcome == PageOutcome::Complete,
        Err(FinFault::Repeats(_)) => false,
        Err(_) => panic!(rt; "the page does not end"),
    }
}

/// The same of a page with results of these ids.
fn take(rt: &impl Abort, alloc: Global, log: &mut Log, ids: &[&str]) -> bool {
    begin(rt, alloc, log, ids);
    let last = ids.last().expect(rt, "an id");
    end(rt, alloc, log, last)
}

/// Pages after one with the entries b and d: whether each joins the log.
static PAGES: [(&[&str], bool); 7] = [
    (&["e", "f"], true),
    (&["c", "a"], true),
    (&["d"], false),
    (&["b"], false),
    (&["c", "b"], false),
    (&["c", "c"], false),
    (&["e", "e"], false),
];

/// The same of a page that comes after another, and how many entries the log has then.
fn taken_after(rt: &impl Abort, alloc: Global, ids: &[&str]) -> (bool, usize) {
    let mut log = Log::new(alloc);
    let _ = take(rt, alloc, &mut log, &["b", "d"]);
    let complete = take(rt, alloc, &mut log, ids);
    (complete, log.entries().len())
}

#[test]
fn pages_join_where_no_id_repeats(rt: HostRuntime) {
    for (ids, joins) in &PAGES {
        let grown = if *joins { ids.len() } else { 0 };
        let entries = grown.saturating_add(2);
        assert!(rt; taken_after(&rt, rt.alloc(), ids) == (*joins, entries));
    }
}

/// Whether a message that comes live is held.
fn hold(rt: &impl Abort, alloc: Global, log: &mut Log, id: &str) -> bool {
    log.hold(alloc, logged(rt, alloc, id)).expect(rt, "memory")
}

static HELD: [&str; 3] = ["e", "f", "g"];

/// Pages of a log that holds these: how many it holds then.
static BROUGHT: [(&[&str], usize); 5] = [
    (&["d"], 3),
    (&["e"], 2),
    (&["f"], 2),
    (&["e", "f"], 1),
    (&["g", "e"], 1),
];

fn held_after(rt: &impl Abort, alloc: Global, ids: &[&str]) -> usize {
    let mut log = Log::new(alloc);
    for id in &HELD {
        let _ = hold(rt, alloc, &mut log, id);
    }
    let _ = take(rt, alloc, &mut log, ids);
    log.held().len()
}

#[test]
fn a_page_brings_what_is_held(rt: HostRuntime) {
    for (ids, left) in &BROUGHT {
        assert!(rt; held_after(&rt, rt.alloc(), ids) == *left);
    }
}

/// Messages that come live to a log with the entry b that holds e: whether each is held.
static LIVE: [(&str, bool); 3] = [("b", false), ("e", false), ("c", true)];

fn is_held(rt: &impl Abort, alloc: Global, id: &str) -> bool {
    let mut log = Log::new(alloc);
    let _ = take(rt, alloc, &mut log, &["b"]);
    let _ = hold(rt, alloc, &mut log, "e");
    hold(rt, alloc, &mut log, id)
}

#[test]
fn a_message_is_held_once(rt: HostRuntime) {
    for (id, holds) in &LIVE {
        assert!(rt; is_held(&rt, rt.alloc(), id) == *holds);
    }
}

/// Ends a page of b and d that is not the last, and begins the next one.
fn turn(rt: &impl Abort, alloc: Global, log: &mut Log) {
    begin(rt, alloc, log, &["b", "d"]);
    let more = fin(rt, alloc, "d", false);
    let rendered = log.fin_then_begin(alloc, "q", &more, text(rt, alloc, "r"));
    let _ = rendered.expect(rt, "a next page");
}

/// Asks anew for the page that was begun, takes it over with f, and answers where the log breaks.
fn asked_anew(rt: &impl Abort, alloc: Global) -> Option<u64> {
    let mut log = Log::new(alloc);
    turn(rt, alloc, &mut log);
    log.restart(alloc, "r", text(rt, alloc, "q"))
        .expect(rt, "a page anew");
    put(rt, alloc, &mut log, "f");
    let _ = end(rt, alloc, &mut log, "f");
    log.breaks().first().copied()
}

#[test]
fn a_page_asked_for_anew_breaks_the_log(rt: HostRuntime) {
    assert!(rt; asked_anew(&rt, rt.alloc()) == Some(2));
}

fn result_fault(
    rt: &impl Abort,
    alloc: Global,
    log: &mut Log,
    queryid: &str,
) -> Option<ResultFault> {
    log.result(queryid, logged(rt, alloc, "c")).err()
}

/// What a page of two with two results does to results of another query and of its own, and to another page.
fn refused(
    rt: &impl Abort,
    alloc: Global,
) -> (Option<ResultFault>, Option<ResultFault>, Option<BeginFault>) {
    let mut log = Log::new(alloc);
    begin(rt, alloc, &mut log, &["a", "b"]);
    (
        result_fault(rt, alloc, &mut log, "p"),
        result_fault(rt, alloc, &mut log, "q"),
        log.begin(alloc, Text::new(alloc), 1).err(),
    )
}

#[test]
fn an_open_page_refuses_calls(rt: HostRuntime) {
    let stranger = Some(ResultFault::Stranger);
    let overrun = Some(ResultFault::Overrun);
    let underway = Some(BeginFault::Underway);
    assert!(rt; refused(&rt, rt.alloc()) == (stranger, overrun, underway));
}

const TOLD: &str = "the archive is full, no entry has this id, an empty page is not the last one, \
                    no open page has this query id, a page is open already, \
                    the page was asked for from the first entry";

fn are_told(alloc: Global, shown: &str) -> bool {
    let full = ArchiveFault::Full;
    let absent = PageFault::NotFound;
    let empty = FinFault::NoAdvance;
    let stranger = ResultFault::Stranger;
    let underway = BeginFault::Underway;
    let placeless = RestartFault::NoPlace;
    match format!(in alloc; "{full}, {absent}, {empty}, {stranger}, {underway}, {placeless}") {
        Ok(text) => text.as_str() == shown,
        Err(_) => false,
    }
}

#[test]
fn faults_are_printed(rt: HostRuntime) {
    assert!(rt; are_told(rt.alloc(), TOLD));
}
