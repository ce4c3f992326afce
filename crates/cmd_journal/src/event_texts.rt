//! The lines of a journal's events.
ghost use Rattle.std.specs.Prelude.{◌≡◌, ◌∷◌, ◌++◌, [], OnOk};
ghost use Rattle.cmd_journal.specs.Journals.{event_text, event_view, journal_header};

use crate::event::Event;
use crate::pieces::{append_hex_field, append_number, append_number_field};
use base_io::{Bytes, NoMemory};
use cmd_schedule::Version;
use std::alloc::Global;

fn journal_header(version: Version) -> &'static [u8]
    ensures { result.now ≡ journal_header version }
{
    match version {
        Version::One => b"xmpp-journal 1",
        Version::Two { .. } => b"xmpp-journal 2",
    }
}

/// Adds the first line of a journal. A refusal leaves a part of it behind the other bytes.
pub fn append_journal_header(out: &mut Bytes, version: Version) -> Result<(), NoMemory>
    ensures { OnOk result (out.new.items ≡ out.old.items ++ journal_header version ++ 10 ∷ []) }
{
    out.append(journal_header(version))?;
    out.append(b"\n")
}

/// Adds the line of an event. A refusal leaves a part of it behind the other bytes.
pub fn append_event(alloc: Global, out: &mut Bytes, event: &Event) -> Result<(), NoMemory>
    ensures { OnOk result (out.new.items ≡ out.old.items ++ event_text (event_view event.now) ++ 10 ∷ []) }
{
    match event {
        Event::Connect {
            connection,
            moment,
            entropy,
        } => {
            out.append(b"connect ")?;
            append_number(out, *connection)?;
            append_number_field(out, *moment)?;
            append_hex_field(alloc, out, entropy.as_slice())?;
        }
        Event::Piece {
            connection,
            moment,
            bytes,
        } => {
            out.append(b"piece ")?;
            append_number(out, *connection)?;
            append_number_field(out, *moment)?;
            append_hex_field(alloc, out, bytes.as_slice())?;
        }
        Event::Gone { connection, moment } => {
            out.append(b"gone ")?;
            append_number(out, *connection)?;
            append_number_field(out, *moment)?;
        }
    }
    out.append(b"\n")
}
