//! What a log says of a try. An entry of another sender, or one that was logged before the try, is none of it: ids begin
//! anew with each program of a resource, and anybody may write them.
ghost use Rattle.std.specs.Prelude.{◌≡◌, ◌≢◌, ◌↔◌, ℕ, List, ◌∷◌, ◌++◌, decimal, drop, IsTrue};
ghost use Rattle.std.specs.List.{list_any};
ghost use Rattle.std.specs.Option.{MatchOption};
ghost use Rattle.std.specs.Str.{bytes_eq};
ghost use Rattle.sm_outbox.specs.Submissions.{origin_of};
ghost use Rattle.cl_intents.specs.States;

use crate::intents::Try;
use itoa::Buffer;
use mam_log::LogEntry;

// What follows a prefix. `None` where the text doesn't begin with it.
fn following<'a>(text: &'a str, prefix: &str) -> Option<&'a str>
    ensures { MatchOption result ((rest : List ℕ) → text.now ≢ prefix.now ++ rest) (λ rest. text.now ≡ prefix.now ++ rest.now) }
{
    text.strip_prefix(prefix)
}

// Whether a text is two numbers with a dot between.
fn are_numbers(text: &str, epoch: u64, n: u64) -> bool
    ensures { IsTrue result ↔ (text.now ≡ decimal epoch ++ 46 ∷ decimal n) }
{
    let mut epoch_buffer = Buffer::new();
    let Some(dotted) = following(text, epoch_buffer.format(epoch)) else {
        return false;
    };
    let Some(rest) = following(dotted, ".") else {
        return false;
    };
    let mut buffer = Buffer::new();
    rest == buffer.format(n)
}

// Whether an id is the origin id of a submission of the resource (XEP-0359).
fn is_origin(resource: &str, epoch: u64, n: u64, id: &str) -> bool
    ensures { result ≡ bytes_eq (origin_of resource.now epoch n) id.now }
{
    let Some(dotted) = following(id, resource) else {
        return false;
    };
    let Some(numbers) = following(dotted, ".") else {
        return false;
    };
    are_numbers(numbers, epoch, n)
}

// The resource of a full address.
fn resource_of(full: &str) -> &str
    ensures { result.now ≡ States.resource_of full.now }
{
    match full.split_once('/') {
        Some((_bare, resource)) => resource,
        None => "",
    }
}

fn is_entry(full: &str, last: Try, entry: &LogEntry) -> bool
    ensures { result ≡ States.is_entry full.now last entry.now }
{
    let message = entry.entry.message();
    message.from.as_str() == full
        && is_origin(
            resource_of(full),
            last.epoch,
            last.n,
            message.origin.as_str(),
        )
}

// The entries from an index on.
fn entries_from(entries: &[LogEntry], index: u64) -> &[LogEntry]
    ensures { result.now ≡ drop index entries.now }
{
    match entries.get(index as usize..) {
        Some(rest) => rest,
        None => &[],
    }
}

fn is_any_entry(full: &str, last: Try, entries: &[LogEntry]) -> bool
    ensures { result ≡ list_any (States.is_entry full.now last) entries.now }
{
    entries.iter().any(|entry| is_entry(full, last, entry))
}

/// Whether an entry of the try was logged after it.
pub(crate) fn is_logged(full: &str, last: Try, entries: &[LogEntry]) -> bool
    ensures { result ≡ States.is_logged full.now last entries.now }
{
    is_any_entry(full, last, entries_from(entries, last.logged))
}

// The number before the entry at an index; before the first one it is 0.
fn number_before(entries: &[LogEntry], index: u64) -> u64
    ensures { result ≡ States.number_before index entries.now }
{
    if index == 0 {
        return 0;
    }
    match entries.get((index - 1) as usize) {
        Some(entry) => entry.entry.number(),
        None => 0,
    }
}

// Whether some number isn't one more than the one before it.
fn has_gap(before: u64, entries: &[LogEntry]) -> bool
    ensures { result ≡ States.has_gap before entries.now }
{
    let mut last = before;
    for entry in entries {
        let number = entry.entry.number();
        if number == 0 || number - 1 != last {
            return true;
        }
        last = number;
    }
    false
}

/// Whether the log has a hole at an index or after it.
pub(crate) fn has_hole(index: u64, entries: &[LogEntry]) -> bool
    ensures { result ≡ States.has_hole index entries.now }
{
    has_gap(number_before(entries, index), entries_from(entries, index))
}
