//! The lines of a report that a device makes. What its log has is shared, and not moved.
ghost use Rattle.std.specs.Prelude.{◌≡◌, ◌++◌, drop, map, take, IfOk, OnOk};
ghost use Rattle.cmd_network.specs.DeviceLines;
ghost use Rattle.cmd_network.specs.DeviceLines.{held_line, mark_of, said_line, underway_lines};
ghost use Rattle.cmd_report.specs.Lines.{is_break, logged_after, logged_by, tile_line};

use crate::device::Device;
use crate::takes::before_at;
use base_io::{Copied, ListOf, NoMemory, Text};
use cmd_report::{
    DeviceLine, HeldLine, HeldLines, LoggedLines, PageLines, RefusedLine, RefusedLines, SaidLine,
    SaidLines, SaidMark, UnderwayLine, UnderwayLines, copied_logged_line, copied_page_line,
};
use mam_log::{Log, LogEntry, Tile};
use sm_outbox::{Said, SaidState};
use std::alloc::Global;

fn mark_of(state: SaidState) -> SaidMark
    ensures { result ≡ mark_of state }
{
    match state {
        SaidState::Acknowledged => SaidMark::Acknowledged,
        SaidState::Waiting => SaidMark::Waiting,
        SaidState::Undecided => SaidMark::Undecided,
    }
}

fn said_line(alloc: Global, said: &Said) -> Result<SaidLine, NoMemory>
    ensures { IfOk result (λ line. line ≡ said_line said.now) }
{
    Ok(SaidLine {
        epoch: said.epoch,
        n: said.n,
        state: mark_of(said.state),
        to: Text::from_str(alloc, before_at(said.to.as_str()))?,
        text: said.text.copied(alloc)?,
    })
}

fn said_lines(alloc: Global, all: &[Said]) -> Result<SaidLines, NoMemory>
    ensures { IfOk result (λ lines. lines.items ≡ map said_line all.now) }
{
    let mut lines = ListOf::new(alloc);
    lines.reserve(all.len())?;
    for said in all {
        lines.push(said_line(alloc, said)?)?;
    }
    Ok(lines)
}

fn refused_lines(alloc: Global, refused: &[RefusedLine]) -> Result<RefusedLines, NoMemory>
    ensures { IfOk result (λ lines. lines.items ≡ refused.now) }
{
    let mut lines = ListOf::new(alloc);
    lines.reserve(refused.len())?;
    for line in refused {
        lines.push(RefusedLine {
            line: line.line,
            why: line.why,
        })?;
    }
    Ok(lines)
}

fn page_lines(alloc: Global, tiles: &[Tile]) -> Result<PageLines, NoMemory>
    ensures { IfOk result (λ lines. lines.items ≡ map tile_line tiles.now) }
{
    let mut lines = ListOf::new(alloc);
    lines.reserve(tiles.len())?;
    for tile in tiles {
        lines.push(copied_page_line(alloc, tile)?)?;
    }
    Ok(lines)
}

fn underway_lines(alloc: Global, log: &Log) -> Result<UnderwayLines, NoMemory>
    ensures { IfOk result (λ lines. lines.items ≡ underway_lines log.now.page) }
{
    let mut lines = ListOf::new(alloc);
    match log.underway() {
        Some(queryid) => lines.push(UnderwayLine {
            queryid: Text::from_str(alloc, queryid)?,
            got: log.got(),
        })?,
        None => {}
    }
    Ok(lines)
}

// Adds the entries of one page, the first of which may stand behind a break.
fn push_page(
    alloc: Global,
    lines: &mut LoggedLines,
    entries: &[LogEntry],
    broken: bool,
) -> Result<(), NoMemory>
    ensures { OnOk result (lines.new.items ≡ lines.old.items ++ logged_after broken entries.now) }
{
    let mut broken = broken;
    for logged in entries {
        lines.push(copied_logged_line(alloc, logged, broken)?)?;
        broken = false;
    }
    Ok(())
}

// Whether a page behind so many entries, which was asked for behind `after`, begins a run after a break.
fn is_break(before: u64, after: &Option<Text>) -> bool
    ensures { result ≡ is_break before after.now }
{
    after.is_none() && before > 0
}

// The first so many of some entries, and the rest.
fn split_entries(entries: &[LogEntry], count: u64) -> (&[LogEntry], &[LogEntry])
    ensures first { result.0.now ≡ take count entries.now }
    ensures rest { result.1.now ≡ drop count entries.now }
{
    if count < entries.len() as u64 {
        entries.split_at(count as usize)
    } else {
        (entries, &entries[entries.len()..])
    }
}

// Adds the entries of a log's pages, and those behind them.
fn push_pages(
    alloc: Global,
    lines: &mut LoggedLines,
    tiles: &[Tile],
    entries: &[LogEntry],
) -> Result<(), NoMemory>
    ensures { OnOk result (lines.new.items ≡ lines.old.items ++ logged_by 0 tiles.now entries.now) }
{
    let mut rest = entries;
    let mut before = 0u64;
    for tile in tiles {
        let (page, following) = split_entries(rest, tile.count);
        push_page(alloc, lines, page, is_break(before, &tile.after))?;
        rest = following;
        before = before.saturating_add(tile.count);
    }
    push_page(alloc, lines, rest, false)
}

// The lines of a log's entries. The tiles say where its pages begin, and so where a run begins after a break.
fn logged_lines(
    alloc: Global,
    tiles: &[Tile],
    entries: &[LogEntry],
) -> Result<LoggedLines, NoMemory>
    ensures { IfOk result (λ lines. lines.items ≡ logged_by 0 tiles.now entries.now) }
{
    let mut lines = ListOf::new(alloc);
    lines.reserve(entries.len())?;
    push_pages(alloc, &mut lines, tiles, entries)?;
    Ok(lines)
}

fn held_lines(alloc: Global, held: &[LogEntry]) -> Result<HeldLines, NoMemory>
    ensures { IfOk result (λ lines. lines.items ≡ map held_line held.now) }
{
    let mut lines = ListOf::new(alloc);
    lines.reserve(held.len())?;
    for entry in held {
        lines.push(HeldLine {
            id: entry.id.copied(alloc)?,
        })?;
    }
    Ok(lines)
}

// The lines of a log.
#[derive(Drop)]
struct LogLines {
    pages: PageLines,
    underway: UnderwayLines,
    logged: LoggedLines,
    held: HeldLines,
}

// The lines of a log.
fn log_lines(alloc: Global, log: &Log) -> Result<LogLines, NoMemory>
    ensures pages { IfOk result (λ lines. lines.pages.items ≡ map tile_line log.now.tiles) }
    ensures underway { IfOk result (λ lines. lines.underway.items ≡ underway_lines log.now.page) }
    ensures logged { IfOk result (λ lines. lines.logged.items ≡ logged_by 0 log.now.tiles log.now.entries) }
    ensures held { IfOk result (λ lines. lines.held.items ≡ map held_line log.now.held) }
{
    Ok(LogLines {
        pages: page_lines(alloc, log.tiles())?,
        underway: underway_lines(alloc, log)?,
        logged: logged_lines(alloc, log.tiles(), log.entries())?,
        held: held_lines(alloc, log.held())?,
    })
}

/// The line of a device, which is settled or isn't.
pub fn device_line(alloc: Global, device: &Device, settled: bool) -> Result<DeviceLine, NoMemory>
    ensures { IfOk result (λ line. line ≡ DeviceLines.device_line settled device.now) }
{
    let client = &device.client;
    let name = device.name.copied(alloc)?;
    let account = device.account.copied(alloc)?;
    let said = said_lines(alloc, client.said())?;
    let refused = refused_lines(alloc, device.refused.as_slice())?;
    let LogLines {
        pages,
        underway,
        logged,
        held,
    } = log_lines(alloc, client.log())?;
    Ok(DeviceLine {
        name,
        account,
        epoch: client.epoch(),
        settled,
        said,
        refused,
        pages,
        underway,
        logged,
        held,
    })
}
