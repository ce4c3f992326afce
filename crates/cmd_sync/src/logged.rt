//! The lines of pages, of the log's entries and of what is held, one behind the other.
ghost use Rattle.std.specs.Prelude.{◌≡◌, ◌++◌, false, take, drop, OnOk};
ghost use Rattle.std.specs.List.{flat_map};
ghost use Rattle.cmd_sync.specs.Texts.{entries_text, held_line_text, logged_entry_text, logged_page_text, page_tile_text};
ghost use Rattle.cmd_report.specs.Lines.{is_break};

use crate::log_lines::{append_held, append_logged, append_page};
use base_io::{Bytes, NoMemory, Text};
use mam_log::{LogEntry, Tile};

/// Adds the lines of pages.
pub fn append_pages(out: &mut Bytes, tiles: &[Tile]) -> Result<(), NoMemory>
    ensures { OnOk result (out.new.items ≡ out.old.items ++ flat_map page_tile_text tiles.now) }
{
    for tile in tiles {
        append_page(out, tile)?;
    }
    Ok(())
}

/// Adds the lines of messages that are held.
pub fn append_all_held(out: &mut Bytes, held: &[LogEntry]) -> Result<(), NoMemory>
    ensures { OnOk result (out.new.items ≡ out.old.items ++ flat_map held_line_text held.now) }
{
    for one in held {
        append_held(out, one)?;
    }
    Ok(())
}

fn append_all_logged(out: &mut Bytes, entries: &[LogEntry]) -> Result<(), NoMemory>
    ensures { OnOk result (out.new.items ≡ out.old.items ++ flat_map (logged_entry_text false) entries.now) }
{
    for logged in entries {
        append_logged(out, logged, false)?;
    }
    Ok(())
}

// The entries of one page, the first of which may stand behind a break.
fn append_logged_page(out: &mut Bytes, entries: &[LogEntry], broken: bool) -> Result<(), NoMemory>
    ensures { OnOk result (out.new.items ≡ out.old.items ++ logged_page_text broken entries.now) }
{
    match entries {
        [] => Ok(()),
        [first, rest @ ..] => {
            append_logged(out, first, broken)?;
            append_all_logged(out, rest)
        }
    }
}

// Whether a page behind so many entries, which was asked for behind `after`, begins a run after a break.
fn is_break(before: u64, after: &Option<Text>) -> bool
    ensures { result ≡ is_break before after.now }
{
    after.is_none() && before > 0
}

// The first so many entries, and those behind them.
fn first_entries(entries: &[LogEntry], count: u64) -> (&[LogEntry], &[LogEntry])
    ensures page { result.0.now ≡ take count entries.now }
    ensures rest { result.1.now ≡ drop count entries.now }
{
    if count >= entries.len() as u64 {
        return (entries, &[]);
    }
    let n = count as usize;
    (&entries[..n], &entries[n..])
}

/// Adds the lines of a log's entries. The tiles say where its pages begin, and so where a run begins after a break.
pub fn append_entries(out: &mut Bytes, tiles: &[Tile], entries: &[LogEntry]) -> Result<(), NoMemory>
    ensures { OnOk result (out.new.items ≡ out.old.items ++ entries_text 0 tiles.now entries.now) }
{
    let mut before = 0u64;
    let mut rest = entries;
    for tile in tiles {
        let (page, following) = first_entries(rest, tile.count);
        append_logged_page(out, page, is_break(before, &tile.after))?;
        before = before.saturating_add(tile.count);
        rest = following;
    }
    append_all_logged(out, rest)
}
