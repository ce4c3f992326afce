//! Archives and ids: what takes memory.
use base_io::{Copied, ListOf, Text};
use mam_archive::{Archive, ArchivedMessage, Bodies, Body, Entry, id_of_number, number_of};
use std::alloc::Global;
use std::process::Abort;

pub(crate) fn text(rt: &impl Abort, alloc: Global, text: &str) -> Text {
    Text::from_str(alloc, text).expect(rt, "memory")
}

/// A message with these parties and bodies, taken at this moment.
fn message(
    rt: &impl Abort,
    alloc: Global,
    stamp: u64,
    parties: (&str, &str),
    bodies: Bodies,
) -> ArchivedMessage {
    ArchivedMessage {
        stamp,
        from: text(rt, alloc, parties.0),
        to: text(rt, alloc, parties.1),
        normal: false,
        id: Text::new(alloc),
        origin: Text::new(alloc),
        bodies,
    }
}

/// An entry with these parties, taken at this moment.
pub(crate) fn entry(rt: &impl Abort, alloc: Global, stamp: u64, parties: (&str, &str)) -> Entry {
    let message = message(rt, alloc, stamp, parties, ListOf::new(alloc));
    Entry::new(alloc, 0, message).expect(rt, "memory")
}

/// Adds an entry.
pub(crate) fn append(
    rt: &impl Abort,
    alloc: Global,
    archive: &mut Archive,
    stamp: u64,
    parties: (&str, &str),
) {
    archive.reserve().expect(rt, "room");
    archive.append_reserved(entry(rt, alloc, stamp, parties));
}

fn number_at(archive: &Archive, number: u64) -> u64 {
    match archive.get(number) {
        Some(entry) => entry.number(),
        None => 0,
    }
}

/// The first and the last number, and the number of the entry with number 3, after three entries came.
fn grown(rt: &impl Abort, alloc: Global, archive: &mut Archive) -> [u64; 3] {
    for stamp in 1..4 {
        append(rt, alloc, archive, stamp, ("bob@a", "romeo@a"));
    }
    [archive.first(), archive.last(), number_at(archive, 3)]
}

/// The same in an archive that keeps two entries.
fn numbers_kept(rt: &impl Abort, alloc: Global) -> [u64; 3] {
    let mut archive = Archive::new(alloc, text(rt, alloc, "romeo@a"), 2);
    grown(rt, alloc, &mut archive)
}

/// A body in English.
fn bodies_with(rt: &impl Abort, alloc: Global, said: &str) -> Bodies {
    let mut bodies = ListOf::new(alloc);
    let body = Body {
        lang: text(rt, alloc, "en"),
        text: text(rt, alloc, said),
    };
    bodies.push(body).expect(rt, "memory");
    bodies
}

fn has_body(entry: &Entry, text: &str) -> bool {
    match entry.message().bodies.as_slice().first() {
        Some(body) => body.text.as_str() == text,
        None => false,
    }
}

/// Whether an entry has this body, and is from that sender.
fn is_said(entry: Entry, text: &str) -> bool {
    has_body(&entry, text) && entry.message().from.as_str() == "romeo@a/r"
}

/// A copy of an entry.
fn copied_with(rt: &impl Abort, alloc: Global, text: &str) -> Entry {
    let bodies = bodies_with(rt, alloc, text);
    let message = message(rt, alloc, 7, ("romeo@a/r", "bob@a"), bodies);
    let entry = Entry::new(alloc, 0, message).expect(rt, "memory");
    entry.copied(alloc).expect(rt, "memory")
}

#[test]
fn an_archive_keeps_its_newest_entries(rt: HostRuntime) {
    let alloc = rt.alloc();
    assert!(rt; numbers_kept(&rt, alloc) == [2, 3, 3]);
    assert!(rt;
        is_said(
            copied_with(&rt, alloc, "Neither, fair saint"),
            "Neither, fair saint"
        )
    );
}

/// Numbers, and how they are spelled.
static SPELLED: [(u64, &str); 3] = [
    (1, "0000000000000001"),
    (100, "0000000000000064"),
    (u64::MAX, "ffffffffffffffff"),
];

fn is_spelled(id: Text, number: u64, spelled: &str) -> bool {
    id.as_str() == spelled && number_of(spelled) == Some(number)
}

#[test]
fn ids_are_spelled_and_read(rt: HostRuntime) {
    for (number, spelled) in &SPELLED {
        let id = id_of_number(rt.alloc(), *number).expect(&rt, "memory");
        assert!(rt; is_spelled(id, *number, spelled));
    }
}
