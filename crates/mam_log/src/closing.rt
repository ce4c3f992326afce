//! The end of a page: whether it may join the log, and how it does.
ghost use Rattle.std.specs.Prelude.{◌≡◌, ℕ, ◌-◌, ◌<◌, ◌≤◌, false, IsTrue, None, ◌⊎◌, if◌then◌else◌, List, [], ◌∷◌, ◌++◌, Ok, Err, Result, IfOk, IfErr, OnOk, OnErr, length, vec_len, vec_capacity};
ghost use Rattle.std.specs.Result.{result_map_both};
ghost use Rattle.mam_log.specs.Breaks.{break_at, is_break};
ghost use Rattle.mam_log.specs.LogPages.{ids_of, last_id};
ghost use Rattle.mam_log.specs.Orders.{IsOrderOf, Rise};
ghost use Rattle.mam_log.specs.Views.{LogView, advance_of, end_of, outcome_of, first_repeat, repeat_of, same_id};

use crate::fin::{FinFault, PageOutcome};
use crate::id_order::{put_next, repeated, rise};
use crate::log_entry::{LogEntries, LogEntry};
use crate::open_page::{Page, borrowed, copied, last_id, same_id};
use crate::tile::{Tile, Tiles};
use base_io::{NoMemory, Numbers};
use mam_pages::Fin;
use std::alloc::Global;

/// Makes room for further entries, their places, a further tile and a further break.
pub(crate) fn make_room(
    entries: &mut LogEntries,
    order: &mut Vec<usize>,
    tiles: &mut Tiles,
    breaks: &mut Numbers,
    count: usize,
) -> Result<(), NoMemory>
    ensures entries { entries.new.items ≡ entries.old.items }
    ensures order { order.new.items ≡ order.old.items }
    ensures tiles { tiles.new.items ≡ tiles.old.items }
    ensures breaks { breaks.new.items ≡ breaks.old.items }
    ensures room { OnOk result ((count ≤ entries.new.spare) × (count ≤ vec_capacity order.new - vec_len order.new) × (1 ≤ tiles.new.spare) × (1 ≤ breaks.new.spare)) }
{
    entries.reserve(count)?;
    order.reserve(count)?;
    tiles.reserve(1)?;
    breaks.reserve(1)?;
    Ok(())
}

/// Whether the last result told is the last one that came.
fn check_last(alloc: Global, page: &Page, fin: &Fin) -> Result<(), FinFault>
    ensures { (result ≡ Err FinFault.NoMemory) ⊎ (result ≡ (if same_id fin.now.last (last_id page.now.results) then Ok (record {}) else Err (FinFault.Mismatch fin.now.last (last_id page.now.results)))) }
{
    let told = borrowed(&fin.last);
    let came = last_id(page.results.as_slice());
    if same_id(told, came) {
        return Ok(());
    }
    Err(FinFault::Mismatch {
        last: copied(alloc, told)?,
        got: copied(alloc, came)?,
    })
}

/// How a page ended that may join the log, and whether each of its ids is above all before it.
#[derive(Clone, Copy)]
pub(crate) struct Ending {
    pub(crate) outcome: PageOutcome,
    pub(crate) rising: bool,
}

/// Judges a page that is to follow these entries.
#[tactic(auto, using(crate::proofs::Rising::fresh_from_rise))]
pub(crate) fn judge(
    alloc: Global,
    entries: &[LogEntry],
    order: &[usize],
    page: &Page,
    fin: &Fin,
) -> Result<Ending, FinFault>
    requires { IsOrderOf order.now (ids_of entries.now) }
    ensures exact { (log : LogView) → log.entries ≡ entries.now → (result ≡ Err FinFault.NoMemory) ⊎ (result_map_both (λ e. e.outcome) (λ fault. fault) result ≡ end_of log page.now fin.now) }
    ensures rising { IfOk result (λ e. IsTrue e.rising → Rise (ids_of entries.now) (ids_of page.now.results)) }
    ensures fresh { OnOk result (first_repeat (ids_of entries.now) (ids_of page.now.results) ≡ None) }
    ensures advances { OnOk result (fin.now.complete ≡ false → 0 < length page.now.results) }
{
    check_last(alloc, page, fin)?;
    let results = page.results.as_slice();
    if results.is_empty() && !fin.complete {
        return Err(FinFault::NoAdvance);
    }
    let outcome = outcome(fin.complete);
    if rise(order, entries, results) {
        return Ok(Ending {
            outcome,
            rising: true,
        });
    }
    match repeated(alloc, order, entries, results)? {
        None => Ok(Ending {
            outcome,
            rising: false,
        }),
        Some(id) => Err(FinFault::Repeats(id)),
    }
}

/// How a page ended that may join the log.
fn outcome(complete: bool) -> PageOutcome
    ensures { result ≡ outcome_of complete }
{
    if complete {
        PageOutcome::Complete
    } else {
        PageOutcome::More
    }
}

/// Moves results to the end of the entries, and puts their places in the order.
fn join(entries: &mut LogEntries, order: &mut Vec<usize>, results: LogEntries, rising: bool)
    requires rising { IsTrue rising → Rise (ids_of entries.old.items) (ids_of results.items) }
    requires entries { length results.items ≤ entries.old.spare }
    requires positions { length results.items ≤ vec_capacity order.old - vec_len order.old }
    requires order { IsOrderOf order.old.items (ids_of entries.old.items) }
    requires fresh { first_repeat (ids_of entries.old.items) (ids_of results.items) ≡ None }
    ensures entries { entries.new.items ≡ entries.old.items ++ results.items }
    ensures order { IsOrderOf order.new.items (ids_of entries.new.items) }
{
    for entry in results.into_items() {
        put_next(order, entries.as_slice(), entry.id.as_str(), rising);
        entries.push_reserved(entry);
    }
}

/// Whether a page that was asked for anew comes behind entries, and brings one.
fn is_break(before: usize, tile: &Tile) -> bool
    ensures { result ≡ is_break before tile.now }
{
    tile.after.is_none() && (before > 0 && tile.count > 0)
}

/// Notes where a log breaks, if it does so at this page.
fn note_break(breaks: &mut Numbers, before: usize, tile: &Tile)
    requires { 1 ≤ breaks.old.spare }
    ensures { breaks.new.items ≡ breaks.old.items ++ break_at before tile.now }
{
    if is_break(before, tile) {
        breaks.push_reserved(before as u64);
    }
}

/// Moves a page's results to the end of the entries, and keeps the rest of it as a tile.
pub(crate) fn take_over(
    entries: &mut LogEntries,
    order: &mut Vec<usize>,
    tiles: &mut Tiles,
    breaks: &mut Numbers,
    page: Page,
    fin: &Fin,
    rising: bool,
)
    requires rising { IsTrue rising → Rise (ids_of entries.old.items) (ids_of page.results) }
    requires entries { length page.results ≤ entries.old.spare }
    requires positions { length page.results ≤ vec_capacity order.old - vec_len order.old }
    requires tiles { 1 ≤ tiles.old.spare }
    requires breaks { 1 ≤ breaks.old.spare }
    requires order { IsOrderOf order.old.items (ids_of entries.old.items) }
    requires fresh { first_repeat (ids_of entries.old.items) (ids_of page.results) ≡ None }
    ensures entries { entries.new.items ≡ entries.old.items ++ page.results }
    ensures order { IsOrderOf order.new.items (ids_of entries.new.items) }
    ensures tiles { tiles.new.items ≡ tiles.old.items ++ record { after = page.after; count = length page.results; complete = fin.now.complete; total = fin.now.count } ∷ [] }
    ensures breaks { breaks.new.items ≡ breaks.old.items ++ break_at (length entries.old.items) (record { after = page.after; count = length page.results; complete = fin.now.complete; total = fin.now.count }) }
{
    let Page { after, results, .. } = page;
    let tile = Tile {
        after,
        count: results.as_slice().len() as u64,
        complete: fin.complete,
        total: fin.count,
    };
    note_break(breaks, entries.as_slice().len(), &tile);
    tiles.push_reserved(tile);
    join(entries, order, results, rising);
}
