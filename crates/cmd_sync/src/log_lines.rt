//! The lines of a page, of an entry of the log, and of a message that is held.
ghost use Rattle.std.specs.Prelude.{◌≡◌, ◌++◌, OnOk};
ghost use Rattle.std.specs.List.{flat_map};
ghost use Rattle.cmd_sync.specs.Texts.{held_line_text, logged_entry_text, logged_fields_text, page_tile_text};
ghost use Rattle.cmd_report.specs.EntryLines.{first_body};
ghost use Rattle.cmd_report.specs.ReportText.{break_text};

use crate::pieces::{append_field, append_number_field, append_plain, append_plain_field};
use base_io::{Bytes, NoMemory};
use mam_archive::Bodies;
use mam_log::{LogEntry, Tile};

/// The first body's text, or an empty one. It borrows.
fn first_text(bodies: &Bodies) -> &str
    ensures { result.now ≡ first_body bodies.now.items }
{
    match bodies.as_slice() {
        [] => "",
        [first, ..] => first.text.as_str(),
    }
}

/// Adds the line of a page that was taken over.
pub fn append_page(out: &mut Bytes, tile: &Tile) -> Result<(), NoMemory>
    ensures { OnOk result (out.new.items ≡ out.old.items ++ page_tile_text tile.now) }
{
    out.append(b"page ")?;
    match &tile.after {
        Some(id) => append_plain(out, id.as_str())?,
        None => out.append(b"-")?,
    }
    append_number_field(out, tile.count)?;
    if tile.complete {
        append_field(out, "complete")?;
        append_number_field(out, tile.total)?;
    } else {
        append_field(out, "more")?;
    }
    out.append(b"\n")
}

fn break_line(broken: bool) -> &'static [u8]
    ensures { result.now ≡ break_text broken }
{
    if broken { b"break\n" } else { b"" }
}

// Adds the fields of an entry's line, and its end.
fn append_fields(out: &mut Bytes, logged: &LogEntry) -> Result<(), NoMemory>
    ensures { OnOk result (out.new.items ≡ out.old.items ++ logged_fields_text logged.now) }
{
    let message = logged.entry.message();
    append_plain(out, logged.id.as_str())?;
    append_number_field(out, message.stamp)?;
    append_field(out, message.from.as_str())?;
    append_field(out, message.to.as_str())?;
    append_plain_field(out, message.origin.as_str())?;
    append_plain_field(out, first_text(&message.bodies))?;
    out.append(b"\n")
}

/// Adds the line of an entry, and the one before it where a run begins with it after a break.
pub fn append_logged(out: &mut Bytes, logged: &LogEntry, broken: bool) -> Result<(), NoMemory>
    ensures { OnOk result (out.new.items ≡ out.old.items ++ logged_entry_text broken logged.now) }
{
    out.append(break_line(broken))?;
    out.append(b"logged ")?;
    append_fields(out, logged)
}

/// Adds the line of a message that is held.
pub fn append_held(out: &mut Bytes, held: &LogEntry) -> Result<(), NoMemory>
    ensures { OnOk result (out.new.items ≡ out.old.items ++ held_line_text held.now) }
{
    out.append(b"held ")?;
    append_plain(out, held.id.as_str())?;
    out.append(b"\n")
}
