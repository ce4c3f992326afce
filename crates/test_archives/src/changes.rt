//! Changes to commit, and what is looked at of what is kept.
use base_io::{ListOf, NoMemory, Text};
use mam_archive::{ArchivedMessage, Body, Entry};
use mam_keep::{Append, Change, Kept, KeptArchive};
use std::alloc::Global;

fn message(alloc: Global) -> Result<ArchivedMessage, NoMemory> {
    let mut bodies = ListOf::new(alloc);
    bodies.push(Body {
        lang: Text::from_str(alloc, "de")?,
        text: Text::from_str(alloc, "hallo: 1")?,
    })?;
    Ok(ArchivedMessage {
        stamp: 253_402_207_200_000,
        from: Text::from_str(alloc, "romeo@a/phone")?,
        to: Text::from_str(alloc, "julia@a")?,
        normal: true,
        id: Text::from_str(alloc, "i'1\"")?,
        origin: Text::new(alloc),
        bodies,
    })
}

fn append(alloc: Global, number: u64, keep: u32) -> Result<Append, NoMemory> {
    Ok(Append {
        owner: Text::from_str(alloc, "romeo@a")?,
        keep,
        entry: Entry::new(alloc, number, message(alloc)?)?,
    })
}

/// A change of one entry.
pub(crate) fn change_of_one(
    alloc: Global,
    session: u64,
    number: u64,
    keep: u32,
) -> Result<Change, NoMemory> {
    let mut appends = ListOf::new(alloc);
    appends.push(append(alloc, number, keep)?)?;
    Ok(Change { session, appends })
}

fn is_right(entry: &Entry) -> bool {
    let message = entry.message();
    let bodies = message.bodies.as_slice();
    message.stamp == 253_402_207_200_000
        && message.from.as_str() == "romeo@a/phone"
        && message.to.as_str() == "julia@a"
        && message.normal
        && message.id.as_str() == "i'1\""
        && message.origin.as_str() == ""
        && bodies.iter().all(|b| b.lang.as_str() == "de" && b.text.as_str() == "hallo: 1")
        && bodies.len() == 1
}

// An archive's last number and how many entries it has; 99 where an entry isn't what was committed.
fn looked_at(archive: &KeptArchive) -> [u64; 2] {
    let entries = archive.entries.as_slice();
    if entries.iter().all(is_right) {
        [archive.last, entries.len() as u64]
    } else {
        [archive.last, 99]
    }
}

/// The number of the next session, and of the first archive the last number and how many entries it has.
pub(crate) fn seen(kept: &Kept) -> [u64; 3] {
    let [last, count] = match kept.archives.as_slice().first() {
        Some(archive) => looked_at(archive),
        None => [0, 0],
    };
    [kept.session, last, count]
}
