//! Pages of archives, worked out by hand.
ghost use Rattle.std.specs.Prelude.{◌≤◌};

use crate::archives::{append, text};
use base_io::Text;
use mam_archive::{Archive, id_of_number, number_of};
use mam_pages::{ArchiveLook, Fin, PageCut, PageFault, PagePosition, PageQuery, page};
use std::alloc::Global;
use std::process::Abort;

/// The sender and the recipient of each entry. The first, third and fourth are with bob, of which the last two are with
/// his session x.
static PARTIES: [(&str, &str); 5] = [
    ("romeo@a/r", "bob@a"),
    ("carol@a/c", "romeo@a"),
    ("bob@a/x", "romeo@a/r"),
    ("romeo@a/s", "bob@a/x"),
    ("romeo@a", "carol@a"),
];

/// A place by an entry's number.
#[derive(Clone, Copy)]
enum At {
    First,
    After(u64),
    Before(u64),
    Last,
    AfterId(&'static str),
}

/// A query: with whom, the earliest and the latest moment, the place, and the most entries.
type Asked = (&'static str, Option<u64>, Option<u64>, At, Option<u32>);

/// A page: its numbers, the place of the first, how many match, and whether nothing remains.
type Found = (&'static [u64], u64, u64, bool);

/// How many entries the archive keeps, what is asked for, and the page.
static PAGES: [(u32, Asked, Found); 14] = [
    // an account's entries, forward and backward, from an end and from an entry of its own or of another account
    (
        9,
        ("bob@a", None, None, At::First, Some(2)),
        (&[1, 3], 0, 3, false),
    ),
    (
        9,
        ("bob@a", None, None, At::After(2), Some(2)),
        (&[3, 4], 1, 3, true),
    ),
    (
        9,
        ("bob@a", None, None, At::Before(4), Some(1)),
        (&[3], 1, 3, false),
    ),
    (
        3,
        ("bob@a", None, None, At::Last, Some(1)),
        (&[4], 1, 2, false),
    ),
    // of a session, and of an account with whom nothing was exchanged
    (
        9,
        ("bob@a/x", None, None, At::First, None),
        (&[3, 4], 0, 2, true),
    ),
    (
        9,
        ("bob@a/y", None, None, At::Last, None),
        (&[], 0, 0, true),
    ),
    // everybody's, whole and in part
    (
        9,
        ("", None, None, At::Last, Some(2)),
        (&[4, 5], 3, 5, false),
    ),
    (9, ("", None, None, At::Before(1), None), (&[], 0, 5, true)),
    (9, ("", None, None, At::First, Some(0)), (&[], 0, 5, false)),
    (
        3,
        ("", None, None, At::After(3), None),
        (&[4, 5], 1, 3, true),
    ),
    // between two moments, which both belong to it
    (
        9,
        ("", Some(20), Some(40), At::First, None),
        (&[2, 3, 4], 0, 3, true),
    ),
    (
        9,
        ("", None, Some(40), At::Before(4), Some(2)),
        (&[2, 3], 1, 4, false),
    ),
    (
        9,
        ("bob@a", Some(20), None, At::Last, Some(1)),
        (&[4], 1, 2, false),
    ),
    // of the newest entry alone
    (
        1,
        ("carol@a", None, None, At::Before(5), None),
        (&[], 0, 1, true),
    ),
];

/// Ids of no entry in an archive that keeps three. The second one is that of an entry that is kept no more.
static UNKNOWN: [&str; 4] = [
    "0000000000000006",
    "0000000000000002",
    "",
    "000000000000000A",
];

fn fill(rt: &impl Abort, alloc: Global, archive: &mut Archive) {
    let mut stamp: u64 = 0;
    for parties in &PARTIES {
        stamp = stamp.saturating_add(10);
        append(rt, alloc, archive, stamp, *parties);
    }
}

/// The newest of the entries, in an archive that keeps so many.
fn archive(rt: &impl Abort, alloc: Global, keep: u32) -> Archive
    requires { 1 ≤ keep }
{
    let mut archive = Archive::new(alloc, text(rt, alloc, "romeo@a"), keep);
    fill(rt, alloc, &mut archive);
    archive
}

fn id(rt: &impl Abort, alloc: Global, number: u64) -> Text {
    id_of_number(alloc, number).expect(rt, "memory")
}

fn position(rt: &impl Abort, alloc: Global, at: At) -> PagePosition {
    match at {
        At::First => PagePosition::First,
        At::After(number) => PagePosition::After(id(rt, alloc, number)),
        At::Before(number) => PagePosition::Before(id(rt, alloc, number)),
        At::Last => PagePosition::Last,
        At::AfterId(id) => PagePosition::After(text(rt, alloc, id)),
    }
}

fn peer(rt: &impl Abort, alloc: Global, peer: &str) -> Option<Text> {
    if peer.is_empty() {
        None
    } else {
        Some(text(rt, alloc, peer))
    }
}

fn query(rt: &impl Abort, alloc: Global, asked: Asked) -> PageQuery {
    let (with, start, end, at, max) = asked;
    PageQuery {
        peer: peer(rt, alloc, with),
        start,
        end,
        position: position(rt, alloc, at),
        max,
    }
}

fn number_in(id: &Option<Text>) -> Option<u64> {
    match id {
        Some(id) => number_of(id.as_str()),
        None => None,
    }
}

/// Whether the end of a page reports this page.
fn is_reported(fin: &Fin, found: Found) -> bool {
    let (numbers, first_index, count, complete) = found;
    number_in(&fin.first) == numbers.first().copied()
        && number_in(&fin.last) == numbers.last().copied()
        && (fin.first_index, fin.count, fin.complete) == (first_index, count, complete)
}

fn is_cut(cut: PageCut, fin: Fin, backward: bool, found: Found) -> bool {
    cut.backward == backward && cut.numbers.as_slice() == found.0 && is_reported(&fin, found)
}

fn is_page(rt: &impl Abort, alloc: Global, cut: PageCut, backward: bool, found: Found) -> bool {
    let fin = cut.fin(alloc).expect(rt, "memory");
    is_cut(cut, fin, backward, found)
}

/// What an archive answers.
fn answered(
    rt: &impl Abort,
    alloc: Global,
    archive: Archive,
    asked: Asked,
) -> Result<PageCut, PageFault> {
    let query = query(rt, alloc, asked);
    page(alloc, &mut ArchiveLook::new(&archive), &query)
}

fn is_backward(at: At) -> bool {
    matches!(at, At::Before(_) | At::Last)
}

#[test]
fn pages_are_cut_out(rt: HostRuntime) {
    let alloc = rt.alloc();
    for (keep, asked, found) in &PAGES {
        let cut = answered(&rt, alloc, archive(&rt, alloc, (*keep).max(1)), *asked);
        let backward = is_backward(asked.3);
        assert!(rt; is_page(&rt, alloc, cut.expect(&rt, "a page"), backward, *found));
    }
}

fn is_unknown(answer: Result<PageCut, PageFault>) -> bool {
    matches!(answer, Err(PageFault::NotFound))
}

#[test]
fn ids_of_no_entry_are_not_found(rt: HostRuntime) {
    let alloc = rt.alloc();
    for id in &UNKNOWN {
        let asked = ("", None, None, At::AfterId(*id), None);
        assert!(rt; is_unknown(answered(&rt, alloc, archive(&rt, alloc, 3), asked)));
    }
}
