//! Whether what a store gave may be answered, and whether a change may be committed.
ghost use Rattle.std.specs.Prelude.{◌≤◌, None, length, IsTrue};
ghost use Rattle.std.specs.List.{AllByRecursion};
ghost use Rattle.mam_archive.specs.Chained.{IsBelow};
ghost use Rattle.mam_archive.specs.Entries.{AreNumbered};
ghost use Rattle.mam_keep.specs.Changes.{MayAppend, MayCommit};
ghost use Rattle.mam_keep.specs.Kept.{Differ, IsKeptRight, IsOf, IsOwnedTable};

use crate::change::{Append, Change};
use crate::kept::{Kept, KeptArchive};
use mam_archive::{Entry, GREATEST_NUMBER, bare_form};
use std::cmp::Ordering;

/// The greatest stamp that has a text (XEP-0082): 9999-12-30T22:00:00Z.
pub const GREATEST_STAMP: u64 = 253_402_207_200_000;

/// The greatest number of a session, 2^63.
pub const GREATEST_SESSION: u64 = 9_223_372_036_854_775_808;

fn is_of(owner: &str, entry: &Entry) -> bool
    ensures { IsTrue result → IsOf owner.now entry.now }
{
    let message = entry.message();
    message.stamp <= GREATEST_STAMP
        && (bare_form(message.from.as_str()) == owner || bare_form(message.to.as_str()) == owner)
}

/// Whether entries are numbered up to `last`, and each is the owner's.
fn are_of(owner: &str, last: u64, entries: &[Entry]) -> bool
    requires within { length entries.now ≤ last }
    requires most { last ≤ GREATEST_NUMBER }
    ensures numbers { IsTrue result → AreNumbered last entries.now }
    ensures each { IsTrue result → AllByRecursion (IsOf owner.now) entries.now }
{
    let mut next = last + 1 - entries.len() as u64;
    for entry in entries {
        if entry.number() != next || !is_of(owner, entry) {
            return false;
        }
        next += 1;
    }
    true
}

fn is_whole(archive: &KeptArchive) -> bool
    ensures { IsTrue result → IsOwnedTable archive.now }
{
    let owner = archive.owner.as_str();
    let last = archive.last;
    let entries = archive.entries.as_slice();
    let count = entries.len() as u64;
    if last > GREATEST_NUMBER || count > last {
        return false;
    }
    if count == 0 && last > 0 {
        return false;
    }
    are_of(owner, last, entries)
}

/// Whether a text is above another, by bytes.
fn is_above(before: &str, owner: &str) -> bool
    ensures { IsTrue result → IsBelow before.now owner.now }
{
    match before.cmp(owner) {
        Ordering::Less => true,
        Ordering::Equal | Ordering::Greater => false,
    }
}

/// Whether each archive is whole, and each owner is above the one before.
fn are_whole(archives: &[KeptArchive]) -> bool
    ensures owned { IsTrue result → AllByRecursion IsOwnedTable archives.now }
    ensures owners { IsTrue result → Differ archives.now }
{
    let mut before = "";
    for archive in archives {
        let owner = archive.owner.as_str();
        if !is_above(before, owner) || !is_whole(archive) {
            return false;
        }
        before = owner;
    }
    true
}

/// Whether it may be answered, asked by a keeper that doesn't know what its store gives. The archives have to stand in
/// the order of their owners, by bytes, and no owner may be empty. It goes through all entries once.
pub fn may_be_answered(kept: &Kept) -> bool
    ensures { IsTrue result → IsKeptRight kept.now }
{
    if kept.session < 1 || kept.session > GREATEST_SESSION {
        return false;
    }
    are_whole(kept.archives.as_slice())
}

fn may_be_added(append: &Append) -> bool
    ensures { IsTrue result → MayAppend append.now }
{
    append.keep >= 1
        && append.entry.number() >= 1
        && append.entry.number() <= GREATEST_NUMBER
        && is_of(append.owner.as_str(), &append.entry)
}

fn may_all_be_added(appends: &[Append]) -> bool
    ensures { IsTrue result → AllByRecursion MayAppend appends.now }
{
    for append in appends {
        if !may_be_added(append) {
            return false;
        }
    }
    true
}

/// Whether a change may be committed to a keeper that doesn't say what it keeps.
pub fn may_be_committed(change: &Change) -> bool
    ensures { IsTrue result → MayCommit change.now None }
{
    change.session >= 1
        && change.session <= GREATEST_SESSION
        && may_all_be_added(change.appends.as_slice())
}
