//! The pages that a device takes of its account's archive, one behind the other (XEP-0313 section 4.3, XEP-0059).
ghost use Rattle.std.specs.Prelude.{◌≡◌, ◌-◌, ◌+◌, ◌<◌, ◌≤◌, true, nat_le, if◌then◌else◌, [], Some, None, Ok, length, map, take, slice_index_or, OnOk, IfOk, IsSome, IsSomeAnd};
ghost use Rattle.mam_archive.specs.Entries.{AreKept, EntryView};
ghost use Rattle.cmd_direct.specs.Direct.{as_logged, position_after, query_after, query_at};
ghost use Rattle.cmd_direct.specs.NextPages.{cut_at, is_purged, kept_after, last_logged, purged};
ghost use Rattle.mam_log.specs.LogPages.{last_id};
ghost use Rattle.mam_log.specs.Views.{after_fin, fin_answer, outcome_of, page_for, with_result};
ghost use Rattle.mam_pages.specs.Kept.{kept_of};
ghost use Rattle.mam_pages.specs.PageOf.{page_of};
ghost use Rattle.mam_pages.specs.Spans.{numbers_of};
ghost use Rattle.cmd_replay.specs.Turns.{IsInOrder, caught_up, opened, turn_of, with_results, with_turn};

use base_io::{Copied, NoMemory, Text};
use mam_archive::{Archive, entries_are_kept, id_of_number};
use mam_log::{BeginFault, FinFault, Log, LogEntry, RestartFault, ResultFault};
use mam_pages::{ArchiveLook, Fin, PageCut, PageFault, PagePosition, PageQuery, page};
use std::alloc::Global;

/// Behind the log's last entry, or at the archive's first one where the log has none.
fn position_after(alloc: Global, log: &Log) -> Result<PagePosition, NoMemory>
    ensures { IfOk result (λ position. position ≡ position_after (last_id log.now.entries)) }
{
    match log.entries().last() {
        Some(last) => Ok(PagePosition::After(last.id.copied(alloc)?)),
        None => Ok(PagePosition::First),
    }
}

/// Asks the archive for the page at a place, of at most so many entries. `None` where no entry that it keeps has the
/// place's id.
fn ask_at(
    alloc: Global,
    archive: &Archive,
    position: PagePosition,
    most: u32,
) -> Result<Option<PageCut>, NoMemory>
    ensures { IfOk result (λ cut. page_of (kept_of archive.now) (query_at position most) ≡ cut) }
{
    let query = PageQuery {
        peer: None,
        start: None,
        end: None,
        position,
        max: Some(most),
    };
    match page(alloc, &mut ArchiveLook::new(archive), &query) {
        Ok(cut) => Ok(Some(cut)),
        Err(PageFault::NoMemory) => Err(NoMemory),
        Err(PageFault::NotFound) => Ok(None),
    }
}

/// Asks the archive for the page from its first entry on, which there always is.
fn ask_first(alloc: Global, archive: &Archive, most: u32) -> Result<PageCut, NoMemory>
    requires { most ≤ 100 }
    ensures { IfOk result (λ cut. page_of (kept_of archive.now) (query_after None most) ≡ Some cut) }
{
    match ask_at(alloc, archive, PagePosition::First, most)? {
        Some(cut) => Ok(cut),
        None => unreachable!(),
    }
}

/// A page that the archive answered, and whether it was asked for anew, since the log's last entry was purged.
#[derive(Drop)]
struct Answered {
    cut: PageCut,
    anew: bool,
}

/// Asks the archive for the page behind the log's last entry or, where that one was purged, for the page from the
/// archive's first entry on.
fn ask(alloc: Global, log: &Log, archive: &Archive, most: u32) -> Result<Answered, NoMemory>
    requires kept { AreKept archive.now.keep archive.now.last archive.now.entries }
    requires most { most ≤ 100 }
    requires in_order { IsInOrder archive.now.last log.now.entries }
    ensures cut { IfOk result (λ answered. answered.cut ≡ cut_at (last_logged log.now.entries) most archive.now.last archive.now.entries) }
    ensures anew { IfOk result (λ answered. answered.anew ≡ is_purged (last_logged log.now.entries) archive.now.last archive.now.entries) }
{
    match ask_at(alloc, archive, position_after(alloc, log)?, most)? {
        Some(cut) => Ok(Answered { cut, anew: false }),
        None => Ok(Answered {
            cut: ask_first(alloc, archive, most)?,
            anew: true,
        }),
    }
}

/// A query's id: `q` and how many pages the log has, so that no two pages of a log share one; `again` where the page is
/// asked for anew.
fn query_id(alloc: Global, log: &Log, again: &str) -> Result<Text, NoMemory> {
    let mut queryid = String::from_str(alloc, "q")?;
    queryid.push_str(log.tiles().len().to_string(alloc)?.as_str())?;
    queryid.push_str(again)?;
    Ok(Text::from(queryid))
}

/// Begins the next page behind the log's last entry, and answers its query's id.
fn begin_after(alloc: Global, log: &mut Log, most: u32) -> Result<Text, NoMemory>
    requires most { (1 ≤ most) × (most ≤ 100) }
    requires closed { log.old.page ≡ None }
    ensures { IfOk result (λ queryid. log.new ≡ opened queryid most (last_id log.old.entries) log.old []) }
{
    let queryid = query_id(alloc, log, "")?;
    let kept = Text::from_str(alloc, queryid.as_str())?;
    match log.begin(alloc, kept, most) {
        Ok(()) => Ok(queryid),
        Err(BeginFault::NoMemory) => Err(NoMemory),
        Err(BeginFault::Underway) => unreachable!(),
    }
}

/// Asks anew for the open page, from the archive's first entry on, and answers the new query's id.
fn begin_anew(alloc: Global, log: &mut Log, queryid: &str) -> Result<Text, NoMemory>
    requires { IsSomeAnd (page_for queryid.now log.old.page) (λ page. IsSome page.after) }
    ensures { IfOk result (λ fresh. IsSomeAnd log.old.page (λ page. log.new ≡ opened fresh page.max None log.old [])) }
{
    let fresh = query_id(alloc, log, "again")?;
    let kept = Text::from_str(alloc, fresh.as_str())?;
    match log.restart(alloc, queryid, kept) {
        Ok(()) => Ok(fresh),
        Err(RestartFault::Stranger) | Err(RestartFault::NoPlace) => unreachable!(),
    }
}

/// Begins the next page, behind the log's last entry or anew, and answers its query's id.
fn begin_page(alloc: Global, log: &mut Log, most: u32, anew: bool) -> Result<Text, NoMemory>
    requires most { (1 ≤ most) × (most ≤ 100) }
    requires closed { log.old.page ≡ None }
    requires following { anew ≡ true → IsSome (last_id log.old.entries) }
    ensures { IfOk result (λ queryid. log.new ≡ opened queryid most (if anew then None else last_id log.old.entries) log.old []) }
{
    let queryid = begin_after(alloc, log, most)?;
    if anew {
        begin_anew(alloc, log, queryid.as_str())
    } else {
        Ok(queryid)
    }
}

/// Adds the archive's entry with a number to the open page. The page shares it with the archive.
fn add_result(
    alloc: Global,
    log: &mut Log,
    queryid: &str,
    archive: &Archive,
    number: u64,
) -> Result<(), NoMemory>
    requires open { IsSomeAnd (page_for queryid.now log.old.page) (λ page. length page.results < page.max) }
    requires there { (archive.now.last < number + length archive.now.entries) × (number ≤ archive.now.last) }
    ensures { (d : EntryView) → OnOk result (log.new ≡ with_result log.old
        (as_logged (slice_index_or archive.now.entries (number + length archive.now.entries - 1 - archive.now.last) d))) }
{
    let Some(entry) = archive.get(number) else {
        unreachable!()
    };
    let logged = LogEntry {
        id: id_of_number(alloc, entry.number())?,
        entry: entry.copied(alloc)?,
    };
    match log.result(queryid, logged) {
        Ok(()) => Ok(()),
        Err(ResultFault::NoMemory) => Err(NoMemory),
        Err(ResultFault::Stranger) | Err(ResultFault::Overrun) => unreachable!(),
    }
}

/// Adds the archive's entries with the numbers of the next page to the open page.
fn add_results(
    alloc: Global,
    log: &mut Log,
    queryid: &str,
    archive: &Archive,
    most: u32,
    numbers: &[u64],
) -> Result<(), NoMemory>
    requires kept { AreKept archive.now.keep archive.now.last archive.now.entries }
    requires begun { IsSomeAnd (page_for queryid.now log.old.page) (λ page. (page.max ≡ most) × (page.results ≡ [])) }
    requires next { numbers.now ≡ numbers_of (take most (kept_after (last_logged log.old.entries) archive.now.last archive.now.entries)) }
    ensures { OnOk result (log.new ≡ with_results log.old
        (map as_logged (take most (kept_after (last_logged log.old.entries) archive.now.last archive.now.entries)))) }
{
    for number in numbers {
        add_result(alloc, log, queryid, archive, *number)?;
    }
    Ok(())
}

/// Ends the open page, of which it is known that it ends well.
fn end_page(alloc: Global, log: &mut Log, queryid: &str, fin: &Fin) -> Result<(), NoMemory>
    requires { fin_answer log.old queryid.now fin.now ≡ Ok (outcome_of fin.now.complete) }
    ensures { OnOk result (log.new ≡ after_fin log.old fin.now) }
{
    match log.fin(alloc, queryid, fin) {
        Ok(_) => Ok(()),
        Err(FinFault::NoMemory) => Err(NoMemory),
        Err(FinFault::Stranger)
        | Err(FinFault::Mismatch { .. })
        | Err(FinFault::Repeats(_))
        | Err(FinFault::NoAdvance) => unreachable!(),
    }
}

/// Takes the archive's next page of at most so many entries over into the log. It answers whether the page is
/// complete, and costs what the page costs, however long the archive is.
fn take_page(alloc: Global, log: &mut Log, archive: &Archive, most: u32) -> Result<bool, NoMemory>
    requires kept { AreKept archive.now.keep archive.now.last archive.now.entries }
    requires most { (1 ≤ most) × (most ≤ 100) }
    requires closed { log.old.page ≡ None }
    requires in_order { IsInOrder archive.now.last log.old.entries }
    ensures page { OnOk result (log.new ≡ with_turn log.old (turn_of most archive.now.last archive.now.entries log.old)) }
    ensures complete { IfOk result (λ complete. complete ≡ (turn_of most archive.now.last archive.now.entries log.old).complete) }
{
    let Answered { cut, anew } = ask(alloc, log, archive, most)?;
    let fin = cut.fin(alloc)?;
    let queryid = begin_page(alloc, log, most, anew)?;
    add_results(
        alloc,
        log,
        queryid.as_str(),
        archive,
        most,
        cut.numbers.as_slice(),
    )?;
    end_page(alloc, log, queryid.as_str(), &fin)?;
    Ok(cut.complete)
}

/// Takes the pages behind the log's last entry until one is complete. Each costs what its entries cost.
pub(crate) fn catch_up(
    alloc: Global,
    log: &mut Log,
    archive: &Archive,
    most: u32,
) -> Result<(), NoMemory>
    requires most { (1 ≤ most) × (most ≤ 100) }
    requires closed { log.old.page ≡ None }
    requires in_order { IsInOrder archive.now.last log.old.entries }
    ensures { OnOk result (log.new ≡ caught_up most archive.now.last archive.now.entries log.old) }
{
    entries_are_kept(archive);
    let mut more = true;
    while more {
        more = !take_page(alloc, log, archive, most)?;
    }
    Ok(())
}
