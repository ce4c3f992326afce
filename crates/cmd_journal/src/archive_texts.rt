//! The lines of an account's archive.
ghost use Rattle.std.specs.Prelude.{◌≡◌, ◌++◌, OnOk, map};
ghost use Rattle.std.specs.List.{flat_map};
ghost use Rattle.cmd_journal.specs.Texts.{archive_text, archive_view, named_view, plain_entry_text};
ghost use Rattle.cmd_report.specs.EntryLines.{first_body};
ghost use Rattle.cmd_report.specs.ReportText.{last_text};

use crate::pieces::{append_field, append_number_field, append_plain_field};
use base_io::{Bytes, NoMemory};
use cmd_schedule::Version;
use mam_archive::{Archive, Bodies, Entry, id_text};

/// An archive, under the name of its account.
#[derive(Clone, Copy)]
pub struct NamedArchive<'a> {
    pub name: &'a str,
    pub archive: &'a Archive,
}

/// The first body's text, or an empty one. It borrows.
fn first_text(bodies: &Bodies) -> &str
    ensures { result.now ≡ first_body bodies.now.items }
{
    match bodies.as_slice() {
        [] => "",
        [first, ..] => first.text.as_str(),
    }
}

/// Adds an entry's line.
fn append_entry(out: &mut Bytes, entry: &Entry) -> Result<(), NoMemory>
    ensures { OnOk result (out.new.items ≡ out.old.items ++ plain_entry_text entry.now) }
{
    let message = entry.message();
    out.append(b"entry ")?;
    out.append(&id_text(entry.number()))?;
    append_number_field(out, message.stamp)?;
    append_field(out, message.from.as_str())?;
    append_field(out, message.to.as_str())?;
    append_plain_field(out, message.origin.as_str())?;
    append_plain_field(out, first_text(&message.bodies))?;
    out.append(b"\n")
}

/// Adds the greatest number given, where the version tells it.
fn append_last(out: &mut Bytes, version: Version, last: u64) -> Result<(), NoMemory>
    ensures { OnOk result (out.new.items ≡ out.old.items ++ last_text version last) }
{
    match version {
        Version::One => Ok(()),
        Version::Two { .. } => append_number_field(out, last),
    }
}

/// Adds the lines of the entries that are kept.
fn append_entries(out: &mut Bytes, archive: &Archive) -> Result<(), NoMemory>
    ensures { OnOk result (out.new.items ≡ out.old.items ++ flat_map plain_entry_text archive.now.entries) }
{
    let first = archive.first();
    for i in 0..archive.len() {
        match archive.get(first + i) {
            Some(entry) => append_entry(out, entry)?,
            None => unreachable!(),
        }
    }
    Ok(())
}

/// Adds the lines of an archive: its account's, and those of its entries. In the fields that peers choose, the origin id
/// and the text, each character below U+20 is written as a space. A refusal leaves a part of them behind the other bytes.
pub fn append_archive(
    out: &mut Bytes,
    version: Version,
    name: &str,
    archive: &Archive,
) -> Result<(), NoMemory>
    ensures { OnOk result (out.new.items ≡ out.old.items ++ archive_text version (archive_view name.now archive.now)) }
{
    out.append(b"account ")?;
    out.append(name.as_bytes())?;
    append_number_field(out, archive.len())?;
    append_last(out, version, archive.last())?;
    out.append(b"\n")?;
    append_entries(out, archive)
}

/// Adds the lines of archives, in order.
pub fn append_archives(
    out: &mut Bytes,
    version: Version,
    archives: &[NamedArchive<'_>],
) -> Result<(), NoMemory>
    ensures { OnOk result (out.new.items ≡ out.old.items ++ flat_map (archive_text version) (map named_view archives.now)) }
{
    for named in archives {
        append_archive(out, version, named.name, named.archive)?;
    }
    Ok(())
}
