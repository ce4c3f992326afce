//! The changes that are committed: messages of alice to bob, in the archives of both.
use crate::stop::Stop;
use base_io::{ListOf, NoMemory, Text};
use mam_archive::{ArchivedMessage, Bodies, Body, Entry};
use mam_keep::{Append, Change};
use std::alloc::{AllocError, Global};

/// The two accounts.
pub(crate) const ACCOUNTS: [&str; 2] = ["alice@chat.example", "bob@chat.example"];

fn bodies(alloc: Global) -> Result<Bodies, NoMemory> {
    let mut bodies = ListOf::new(alloc);
    bodies.push(Body {
        lang: Text::from_str(alloc, "en")?,
        text: Text::from_str(
            alloc,
            "A message of an ordinary length, some sixty bytes or so long.",
        )?,
    })?;
    Ok(bodies)
}

// A text that has a number.
fn id(alloc: Global, number: u64) -> Result<Text, AllocError> {
    Ok(Text::from(format!(in alloc; "m{number}")?))
}

fn message(alloc: Global, number: u64) -> Result<ArchivedMessage, Stop> {
    Ok(ArchivedMessage {
        stamp: 1_700_000_000_000,
        from: Text::from_str(alloc, "alice@chat.example/phone")?,
        to: Text::from_str(alloc, "bob@chat.example")?,
        normal: false,
        id: id(alloc, number)?,
        origin: Text::from_str(alloc, "phone.1.1")?,
        bodies: bodies(alloc)?,
    })
}

fn append(alloc: Global, owner: &str, number: u64, keep: u32) -> Result<Append, Stop> {
    let message = message(alloc, number)?;
    Ok(Append {
        owner: Text::from_str(alloc, owner)?,
        keep,
        entry: Entry::new(alloc, number, message)?,
    })
}

/// A change of one entry of alice with a number.
pub(crate) fn change_of_one(
    alloc: Global,
    session: u64,
    number: u64,
    keep: u32,
) -> Result<Change, Stop> {
    let mut appends = ListOf::new(alloc);
    appends.push(append(alloc, ACCOUNTS[0], number, keep)?)?;
    Ok(Change { session, appends })
}

/// A change of so many entries, the first one of alice, the next one of bob, and so on. Their numbers go on from the
/// accounts' last ones.
pub(crate) fn change_of_both(
    alloc: Global,
    session: u64,
    lasts: [u64; 2],
    each: u64,
    keep: u32,
) -> Result<Change, Stop> {
    let mut appends = ListOf::new(alloc);
    for n in 0..each {
        let at = (n % 2) as usize;
        let number = lasts[at].saturating_add(1).saturating_add(n / 2);
        appends.push(append(alloc, ACCOUNTS[at], number, keep)?)?;
    }
    Ok(Change { session, appends })
}
