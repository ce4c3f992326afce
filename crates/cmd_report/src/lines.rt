//! Lines of a report, made of what archives and logs hold: by moving it, or, under a name that begins with `copied`,
//! by copying it.
//!
//! Lines of a report are made by moving. The schedule is dropped before its report is made, and the input before it
//! is run.
ghost use Rattle.std.specs.Prelude.{◌≡◌, ◌++◌, false, length, map, take, drop, IfOk, OnOk};
ghost use Rattle.std.specs.Vec.Iter.{into_iter_items, into_iter_len};
ghost use Rattle.cmd_report.specs.EntryLines.{line_under};
ghost use Rattle.cmd_report.specs.Lines.{entry_line, is_break, logged_after, logged_by, logged_line, tile_line};

use crate::report::{EntryLine, EntryLines, LoggedLine, LoggedLines, PageLine, PageLines};
use base_io::{Copied, ListOf, NoMemory, Text};
use mam_archive::{Entry, id_of_number};
use mam_log::{LogEntries, LogEntry, Tile, Tiles};
use std::alloc::Global;
use std::vec::IntoIter;

/// The line of an archive's entry.
pub fn entry_line(alloc: Global, entry: Entry) -> Result<EntryLine, NoMemory>
    ensures { IfOk result (λ line. line ≡ entry_line entry) }
{
    Ok(EntryLine::new(id_of_number(alloc, entry.number())?, entry))
}

/// The lines of an archive's entries, in order.
pub fn entry_lines(alloc: Global, entries: Vec<Entry>) -> Result<EntryLines, NoMemory>
    ensures { IfOk result (λ lines. lines.items ≡ map entry_line entries.items) }
{
    let mut lines = ListOf::new(alloc);
    lines.reserve(entries.len())?;
    for entry in entries {
        lines.push(entry_line(alloc, entry)?)?;
    }
    Ok(lines)
}

/// The line of a page that a log took over.
pub fn page_line(tile: Tile) -> PageLine
    ensures { result ≡ tile_line tile }
{
    let Tile {
        after,
        count,
        complete,
        total,
    } = tile;
    PageLine {
        after,
        count,
        total: if complete { Some(total) } else { None },
    }
}

/// The lines of a log's pages, in order.
pub fn page_lines(alloc: Global, tiles: Tiles) -> Result<PageLines, NoMemory>
    ensures { IfOk result (λ lines. lines.items ≡ map tile_line tiles.items) }
{
    let mut lines = ListOf::new(alloc);
    lines.reserve(tiles.as_slice().len())?;
    for tile in tiles.into_items() {
        lines.push(page_line(tile))?;
    }
    Ok(lines)
}

/// The line of a log's entry. `broken` where a run begins with it after a break.
pub fn logged_line(logged: LogEntry, broken: bool) -> LoggedLine
    ensures { result ≡ logged_line broken logged }
{
    let LogEntry { id, entry } = logged;
    LoggedLine {
        entry: EntryLine::new(id, entry),
        broken,
    }
}

fn push_page(
    lines: &mut LoggedLines,
    entries: &mut IntoIter<LogEntry, Global>,
    count: u64,
    broken: bool,
) -> Result<(), NoMemory>
    requires { into_iter_len entries.old ≡ length (into_iter_items entries.old) }
    ensures counted { OnOk result (into_iter_len entries.new ≡ length (into_iter_items entries.new)) }
    ensures lines { OnOk result (lines.new.items ≡ lines.old.items ++ logged_after broken (take count (into_iter_items entries.old))) }
    ensures rest { OnOk result (into_iter_items entries.new ≡ drop count (into_iter_items entries.old)) }
{
    let mut broken = broken;
    for i in 0..count {
        match entries.next() {
            None => return Ok(()),
            Some(logged) => lines.push(logged_line(logged, broken))?,
        }
        broken = false;
    }
    Ok(())
}

// Whether a page behind so many entries, which was asked for behind `after`, begins a run after a break.
fn is_break(before: u64, after: &Option<Text>) -> bool
    ensures { result ≡ is_break before after.now }
{
    after.is_none() && before > 0
}

/// Moves the entries of the pages into lines.
fn push_pages(
    lines: &mut LoggedLines,
    entries: &mut IntoIter<LogEntry, Global>,
    tiles: &Tiles,
) -> Result<(), NoMemory>
    requires { into_iter_len entries.old ≡ length (into_iter_items entries.old) }
    ensures counted { OnOk result (into_iter_len entries.new ≡ length (into_iter_items entries.new)) }
    ensures lines { OnOk result (lines.new.items ++ map (logged_line false) (into_iter_items entries.new) ≡ lines.old.items ++ logged_by 0 tiles.now.items (into_iter_items entries.old)) }
{
    let mut before = 0u64;
    for tile in tiles.as_slice() {
        push_page(lines, entries, tile.count, is_break(before, &tile.after))?;
        before = before.saturating_add(tile.count);
    }
    Ok(())
}

/// The lines of a log's entries, in order. The tiles say where its pages begin, and so where a run begins after a break.
pub fn logged_lines(
    alloc: Global,
    tiles: &Tiles,
    entries: LogEntries,
) -> Result<LoggedLines, NoMemory>
    ensures { IfOk result (λ lines. lines.items ≡ logged_by 0 tiles.now.items entries.items) }
{
    let mut lines = ListOf::new(alloc);
    lines.reserve(entries.as_slice().len())?;
    let mut rest = entries.into_items().into_iter();
    push_pages(&mut lines, &mut rest, tiles)?;
    for logged in rest {
        lines.push(logged_line(logged, false))?;
    }
    Ok(lines)
}

/// The line of an entry, under an id that is moved.
fn copied_line(alloc: Global, id: Text, entry: &Entry) -> Result<EntryLine, NoMemory>
    ensures { IfOk result (λ line. line ≡ line_under id entry.now) }
{
    Ok(EntryLine::new(id, entry.copied(alloc)?))
}

/// The line of an archive's entry.
pub fn copied_entry_line(alloc: Global, entry: &Entry) -> Result<EntryLine, NoMemory>
    ensures { IfOk result (λ line. line ≡ entry_line entry.now) }
{
    copied_line(alloc, id_of_number(alloc, entry.number())?, entry)
}

/// The line of a page that a log took over.
pub fn copied_page_line(alloc: Global, tile: &Tile) -> Result<PageLine, NoMemory>
    ensures { IfOk result (λ line. line ≡ tile_line tile.now) }
{
    Ok(PageLine {
        after: match &tile.after {
            Some(id) => Some(id.copied(alloc)?),
            None => None,
        },
        count: tile.count,
        total: if tile.complete {
            Some(tile.total)
        } else {
            None
        },
    })
}

/// The line of a log's entry. `broken` where a run begins with it after a break.
pub fn copied_logged_line(
    alloc: Global,
    logged: &LogEntry,
    broken: bool,
) -> Result<LoggedLine, NoMemory>
    ensures { IfOk result (λ line. line ≡ logged_line broken logged.now) }
{
    Ok(LoggedLine {
        entry: copied_line(alloc, logged.id.copied(alloc)?, &logged.entry)?,
        broken,
    })
}
