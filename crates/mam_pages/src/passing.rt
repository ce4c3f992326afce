//! Whether an entry matches a query, where it is known with whom it is.
ghost use Rattle.std.specs.Prelude.{◌≡◌, ◌↔◌, List, ℕ, true, Some, None, IsTrue};
ghost use Rattle.mam_archive.specs.Entries.{EntryView};
ghost use Rattle.mam_pages.specs.Matches.{end_passes, is_wanted, stamp_passes, start_passes, with_passes};
ghost use Rattle.mam_pages.specs.Parties.{is_full, other_party};
ghost use Rattle.mam_pages.specs.Stretches.{is_plain};
ghost use Rattle.mam_pages.specs.Walks.{is_in_chain, is_own};

use crate::query::PageQuery;
use mam_archive::{Entry, bare_form};

/// Whether an address has a resource.
pub(crate) fn has_resource(address: &str) -> bool
    ensures { result ≡ is_full address.now }
{
    bare_form(address).len() < address.len()
}

/// Whether this is the whole address of the other party of an entry with its account. `own` says whether that account
/// is the owner's: then both parties are the owner, and the other one is the recipient.
fn is_other_party(entry: &Entry, party: &str, own: bool) -> bool
    ensures { (owner : List ℕ) → own ≡ is_own owner (Some party.now) → is_in_chain owner (Some party.now) entry.now ≡ true →
        (IsTrue result ↔ (other_party owner entry.now ≡ party.now)) }
{
    let message = entry.message();
    if !own && bare_form(message.from.as_str()) == bare_form(party) {
        message.from.as_str() == party
    } else {
        message.to.as_str() == party
    }
}

/// Whether the other party of an entry with the query's account is the one that is asked for.
fn with_asked(entry: &Entry, query: &PageQuery, own: bool) -> bool
    ensures { (owner : List ℕ) → own ≡ is_own owner query.now.peer → is_in_chain owner query.now.peer entry.now ≡ true →
        result ≡ with_passes owner query.now.peer entry.now }
{
    match &query.peer {
        Some(peer) => !has_resource(peer.as_str()) || is_other_party(entry, peer.as_str(), own),
        None => true,
    }
}

/// Whether an entry was taken in the time that is asked for.
pub(crate) fn in_time(entry: &Entry, query: &PageQuery) -> bool
    ensures { result ≡ stamp_passes query.now entry.now }
{
    let stamp = entry.message().stamp;
    let begun = match query.start {
        Some(start) => start <= stamp,
        None => true,
    };
    let over = match query.end {
        Some(end) => end < stamp,
        None => false,
    };
    begun && !over
}

/// Whether an entry with the query's account matches. `own` says whether that account is the owner's.
pub(crate) fn passes(entry: &Entry, query: &PageQuery, own: bool) -> bool
    ensures { (owner : List ℕ) → own ≡ is_own owner query.now.peer → is_in_chain owner query.now.peer entry.now ≡ true →
        result ≡ is_wanted owner query.now entry.now }
{
    in_time(entry, query) && with_asked(entry, query, own)
}

/// Whether a query asks for no more than an account, so that each entry with it matches.
pub(crate) fn asks_no_more(query: &PageQuery) -> bool
    ensures all { (owner : List ℕ) → (entry : EntryView) → result ≡ true → is_in_chain owner query.now.peer entry ≡ true → is_wanted owner query.now entry ≡ true }
    ensures none { query.now.peer ≡ None → query.now.start ≡ None → query.now.end ≡ None → result ≡ true }
    ensures plain { result ≡ is_plain query.now }
{
    let account = match &query.peer {
        Some(peer) => !has_resource(peer.as_str()),
        None => true,
    };
    account && query.start.is_none() && query.end.is_none()
}
