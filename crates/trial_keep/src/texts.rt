//! What is written of what is kept.
use crate::stop::Stop;
use mam_archive::{Body, Entry};
use mam_keep::{Kept, KeptArchive};

fn write_body(rt: &HostRuntime, body: &Body) -> Result<(), Stop> {
    let lang = body.lang.as_str();
    let text = body.text.as_str();
    println!(rt; "body {lang} {text}")?;
    Ok(())
}

// The entry's number, stamp, parties, type and ids.
fn write_entry(rt: &HostRuntime, entry: &Entry) -> Result<(), Stop> {
    let number = entry.number();
    let message = entry.message();
    let stamp = message.stamp;
    let from = message.from.as_str();
    let to = message.to.as_str();
    let kind = if message.normal { "normal" } else { "chat" };
    let id = message.id.as_str();
    let origin = message.origin.as_str();
    println!(rt; "entry {number} {stamp} {from} {to} {kind} {id} {origin}")?;
    Ok(())
}

fn write_whole_entry(rt: &HostRuntime, entry: &Entry) -> Result<(), Stop> {
    write_entry(rt, entry)?;
    for body in entry.message().bodies.as_slice() {
        write_body(rt, body)?;
    }
    Ok(())
}

fn write_archive(rt: &HostRuntime, archive: &KeptArchive) -> Result<(), Stop> {
    let owner = archive.owner.as_str();
    let last = archive.last;
    let count = archive.entries.as_slice().len();
    println!(rt; "archive {owner} {last} {count}")?;
    Ok(())
}

fn write_entries(rt: &HostRuntime, archive: &KeptArchive) -> Result<(), Stop> {
    for entry in archive.entries.as_slice() {
        write_whole_entry(rt, entry)?;
    }
    Ok(())
}

/// Writes the number of the next session and the archives, with or without their entries.
pub(crate) fn write_kept(rt: &HostRuntime, kept: &Kept, with_entries: bool) -> Result<(), Stop> {
    let session = kept.session;
    println!(rt; "session {session}")?;
    for archive in kept.archives.as_slice() {
        write_archive(rt, archive)?;
        if with_entries {
            write_entries(rt, archive)?;
        }
    }
    Ok(())
}
