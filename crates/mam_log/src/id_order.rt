//! The places of entries in the order of their ids. Where ids rise, as those of an archive do, that is the order of the
//! entries, and an id is found to be new by one comparison.
//!
//! A log keeps the indices of its entries in the order of their ids. An id above all others is found new by one
//! comparison; a page whose ids rise above all before them is known to repeat none by one comparison for each.
ghost use Rattle.std.specs.Prelude.{◌≡◌, ℕ, ◌-◌, ◌+◌, ◌<◌, ◌≤◌, List, [], ◌∷◌, ◌++◌, ◌||◌, Some, None, true, false, length, slice_get, vec_len, vec_capacity, IfOk, IfSome, IfNone, IsTrue};
ghost use Rattle.std.specs.List.{list_any};
ghost use Rattle.std.specs.Str.{bytes_eq};
ghost use Rattle.mam_archive.specs.Chained.{IsBelow, IsGap, is_text_of};
ghost use Rattle.mam_log.specs.LogPages.{ids_of};
ghost use Rattle.mam_log.specs.Orders.{AreBelow, AreUpTo, IsOrderOf, Rise, texts_at};
ghost use Rattle.mam_log.specs.Views.{first_repeat};

use crate::log_entry::LogEntry;
use base_io::{Copied, NoMemory, Text};
use std::alloc::Global;
use std::cmp::Ordering;

/// The id that is at a place of the order.
fn id_at<'a>(positions: &[usize], entries: &'a [LogEntry], at: usize) -> &'a str
    requires order { IsOrderOf positions.now (ids_of entries.now) }
    requires there { at < length positions.now }
    ensures { slice_get (texts_at (ids_of entries.now) positions.now) at ≡ Some result.now }
{
    entries[positions[at]].id.as_str()
}

/// Where an id would stand in the order. `None` where an entry has it.
fn search(positions: &[usize], entries: &[LogEntry], id: &str) -> Option<usize>
    requires order { IsOrderOf positions.now (ids_of entries.now) }
    ensures gap { IfSome result (λ at. IsGap (texts_at (ids_of entries.now) positions.now) id.now at) }
    ensures there { IfNone result (is_text_of id.now (ids_of entries.now) ≡ true) }
{
    let mut low = 0;
    let mut high = positions.len();
    while low < high {
        let middle = low + (high - low) / 2;
        match id_at(positions, entries, middle).cmp(id) {
            Ordering::Less => low = middle + 1,
            Ordering::Equal => return None,
            Ordering::Greater => high = middle,
        }
    }
    Some(low)
}

/// The same, where the greatest id is looked at first.
fn gap(positions: &[usize], entries: &[LogEntry], id: &str) -> Option<usize>
    requires order { IsOrderOf positions.now (ids_of entries.now) }
    ensures gap { IfSome result (λ at. IsGap (texts_at (ids_of entries.now) positions.now) id.now at) }
    ensures there { IfNone result (is_text_of id.now (ids_of entries.now) ≡ true) }
{
    let count = positions.len();
    if count == 0 {
        return search(positions, entries, id);
    }
    match id_at(positions, entries, count - 1).cmp(id) {
        Ordering::Less => Some(count),
        Ordering::Equal => None,
        Ordering::Greater => search(positions, entries, id),
    }
}

/// Whether an entry has an id.
pub(crate) fn has_id(positions: &[usize], entries: &[LogEntry], id: &str) -> bool
    requires order { IsOrderOf positions.now (ids_of entries.now) }
    ensures { result ≡ list_any (λ other. bytes_eq id.now other) (ids_of entries.now) }
{
    gap(positions, entries, id).is_none()
}

/// Puts in the place of the entry that is to follow these, with an id that none of them has. It takes no memory.
fn put(positions: &mut Vec<usize>, entries: &[LogEntry], id: &str)
    requires order { IsOrderOf positions.old.items (ids_of entries.now) }
    requires fresh { list_any (λ other. bytes_eq id.now other) (ids_of entries.now) ≡ false }
    requires room { 1 ≤ vec_capacity positions.old - vec_len positions.old }
    ensures order { IsOrderOf positions.new.items (ids_of entries.now ++ id.now ∷ []) }
    ensures room { vec_capacity positions.old - vec_len positions.old ≤ vec_capacity positions.new - vec_len positions.new + 1 }
{
    let Some(at) = gap(positions, entries, id) else {
        unreachable!()
    };
    match positions.insert(at, entries.len()) {
        Ok(()) => {}
        Err(_) => unreachable!(),
    }
}

/// The same of an id of which it may be known that it is above all others: then it takes no comparison.
pub(crate) fn put_next(positions: &mut Vec<usize>, entries: &[LogEntry], id: &str, above: bool)
    requires order { IsOrderOf positions.old.items (ids_of entries.now) }
    requires above { IsTrue above → AreBelow id.now (ids_of entries.now) }
    requires fresh { list_any (λ other. bytes_eq id.now other) (ids_of entries.now) ≡ false }
    requires room { 1 ≤ vec_capacity positions.old - vec_len positions.old }
    ensures order { IsOrderOf positions.new.items (ids_of entries.now ++ id.now ∷ []) }
    ensures room { vec_capacity positions.old - vec_len positions.old ≤ vec_capacity positions.new - vec_len positions.new + 1 }
{
    if above {
        positions.push_reserved(entries.len());
    } else {
        put(positions, entries, id);
    }
}

/// Whether an entry has an id, or one of the results before it.
fn is_repeated(
    positions: &[usize],
    entries: &[LogEntry],
    page: &[usize],
    before: &[LogEntry],
    id: &str,
) -> bool
    requires order { IsOrderOf positions.now (ids_of entries.now) }
    requires page { IsOrderOf page.now (ids_of before.now) }
    ensures { result ≡ (list_any (λ other. bytes_eq id.now other) (ids_of entries.now) || list_any (λ other. bytes_eq id.now other) (ids_of before.now)) }
{
    has_id(positions, entries, id) || has_id(page, before, id)
}

/// The greatest of the ids, or an empty one where there is none.
fn greatest<'a>(positions: &[usize], entries: &'a [LogEntry]) -> &'a str
    requires order { IsOrderOf positions.now (ids_of entries.now) }
    ensures { AreUpTo result.now (ids_of entries.now) }
{
    let count = positions.len();
    if count == 0 {
        return "";
    }
    id_at(positions, entries, count - 1)
}

fn is_above(id: &str, other: &str) -> bool
    ensures { IsTrue result → IsBelow other.now id.now }
{
    match other.cmp(id) {
        Ordering::Less => true,
        Ordering::Equal => false,
        Ordering::Greater => false,
    }
}

/// Whether each of the results' ids is above all ids before it. So it is of a page of an archive; one comparison for
/// each tells it, and then none repeats.
pub(crate) fn rise<'a>(
    positions: &[usize],
    entries: &'a [LogEntry],
    results: &'a [LogEntry],
) -> bool
    requires order { IsOrderOf positions.now (ids_of entries.now) }
    ensures { IsTrue result → Rise (ids_of entries.now) (ids_of results.now) }
{
    let mut last = greatest(positions, entries);
    for at in 0..results.len() {
        let id = results[at].id.as_str();
        if !is_above(id, last) {
            return false;
        }
        last = id;
    }
    true
}

/// The first of the results' ids that an entry has or that stands before itself.
pub(crate) fn repeated(
    alloc: Global,
    positions: &[usize],
    entries: &[LogEntry],
    results: &[LogEntry],
) -> Result<Option<Text>, NoMemory>
    requires order { IsOrderOf positions.now (ids_of entries.now) }
    ensures { IfOk result (λ id. id ≡ first_repeat (ids_of entries.now) (ids_of results.now)) }
{
    let mut page: Vec<usize> = Vec::new(alloc);
    page.reserve(results.len())?;
    for at in 0..results.len() {
        let before = &results[..at];
        let id = &results[at].id;
        if is_repeated(positions, entries, page.as_slice(), before, id.as_str()) {
            return Ok(Some(id.copied(alloc)?));
        }
        put(&mut page, before, id.as_str());
    }
    Ok(None)
}
