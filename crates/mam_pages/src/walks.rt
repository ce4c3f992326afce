//! The entries that match, counted one after another, along the chain of an account or through the whole list.
ghost use Rattle.std.specs.Prelude.{◌≡◌, ℕ, ◌+◌, ◌*◌, ◌<◌, ◌≤◌, ◌^◌, List, [], ◌++◌, Some, None, true, length};
ghost use Rattle.mam_archive.specs.Entries.{EntryView, entry_numbered};
ghost use Rattle.base_io.specs.Counts.{counted};
ghost use Rattle.mam_pages.specs.Kept.{AreConsecutive};
ghost use Rattle.mam_archive.specs.Peers.{bare_form, first_of};
ghost use Rattle.mam_pages.specs.Matches.{is_wanted};
ghost use Rattle.mam_pages.specs.Stretches.{is_plain};
ghost use Rattle.mam_pages.specs.Tallies.{IsTally};
ghost use Rattle.mam_pages.specs.Walks.{chain, chain_looks, is_in_chain, is_own, wanted_number, wanted_numbers};
ghost use Rattle.mam_pages.specs.declared.span.Span.{Span};

use crate::looks::Look;
use crate::passing::{asks_no_more, passes};
use crate::query::PageQuery;
use crate::span::Span;
use crate::tally::Tally;
use mam_archive::bare_form;

/// Whether the entry with a number matches, which is known to be with the query's account.
fn is_match<V: Look>(look: &mut V, query: &PageQuery, own: bool, number: u64) -> bool
    ensures archive { V.archive look.new ≡ V.archive look.old }
    ensures looks { V.looks look.new ≤ V.looks look.old + 1 }
    ensures plain { is_plain query.now ≡ true → V.looks look.new ≡ V.looks look.old }
    ensures answer { (entry : EntryView) → entry_numbered number (V.archive look.old).entries ≡ Some entry →
        own ≡ is_own (V.archive look.old).owner query.now.peer → is_in_chain (V.archive look.old).owner query.now.peer entry ≡ true →
        result ≡ is_wanted (V.archive look.old).owner query.now entry }
{
    if asks_no_more(query) {
        return true;
    }
    match look.get(number) {
        Some(entry) => passes(entry, query, own),
        None => false,
    }
}

/// Counts the entry with a number, which is known to be with the query's account.
fn visit<V: Look>(look: &mut V, query: &PageQuery, own: bool, number: u64, tally: &mut Tally)
    requires { tally.old.count + 1 < 2 ^ 64 }
    ensures archive { V.archive look.new ≡ V.archive look.old }
    ensures looks { V.looks look.new ≤ V.looks look.old + 1 }
    ensures plain { is_plain query.now ≡ true → V.looks look.new ≡ V.looks look.old }
    ensures tally { (entry : EntryView) → (span : Span) → (numbers : List ℕ) → entry_numbered number (V.archive look.old).entries ≡ Some entry → entry.number ≡ number →
        own ≡ is_own (V.archive look.old).owner query.now.peer → is_in_chain (V.archive look.old).owner query.now.peer entry ≡ true →
        IsTally span numbers tally.old → IsTally span (numbers ++ wanted_number (V.archive look.old).owner query.now entry) tally.new }
{
    if is_match(look, query, own, number) {
        tally.add(number);
    }
}

/// The tally of the entries with an account that match: the chain of the account is walked from its first entry on.
pub(crate) fn tally_from<V: Look>(
    look: &mut V,
    query: &PageQuery,
    peer: &str,
    first: Option<u64>,
    span: Span,
) -> Tally
    requires most { span.most ≤ 100 }
    requires peer { query.now.peer ≡ Some peer.now }
    requires first { first ≡ first_of (V.archive look.old).owner (bare_form peer.now) (V.archive look.old).entries }
    requires consecutive { AreConsecutive (V.archive look.old).entries }
    requires few { length (V.archive look.old).entries < 2 ^ 64 }
    ensures tally { IsTally span (wanted_numbers (V.archive look.old).owner query.now (V.archive look.old).entries) result }
    ensures archive { V.archive look.new ≡ V.archive look.old }
    ensures looks { V.looks look.new ≤ V.looks look.old + 2 * length (chain (V.archive look.old) query.now) }
    ensures plain { is_plain query.now ≡ true → V.looks look.new ≤ V.looks look.old + length (chain (V.archive look.old) query.now) }
{
    let own = look.owner() == bare_form(peer);
    let mut tally = Tally::new(span);
    let mut next = first;
    while let Some(number) = next {
        visit(look, query, own, number, &mut tally);
        next = look.next_of(number);
    }
    tally
}

/// The tally of the entries with an account that match: the chain of the account is walked once.
pub(crate) fn tally_of_chain<V: Look>(
    look: &mut V,
    query: &PageQuery,
    peer: &str,
    span: Span,
) -> Tally
    requires most { span.most ≤ 100 }
    requires peer { query.now.peer ≡ Some peer.now }
    requires consecutive { AreConsecutive (V.archive look.old).entries }
    requires few { length (V.archive look.old).entries < 2 ^ 64 }
    ensures tally { IsTally span (wanted_numbers (V.archive look.old).owner query.now (V.archive look.old).entries) result }
    ensures archive { V.archive look.new ≡ V.archive look.old }
    ensures looks { V.looks look.new ≤ V.looks look.old + chain_looks (length (chain (V.archive look.old) query.now)) }
{
    let first = look.first_of(bare_form(peer));
    tally_from(look, query, peer, first, span)
}

/// The tally of all entries that match: each entry is looked at.
pub(crate) fn tally_of_list<V: Look>(look: &mut V, query: &PageQuery, span: Span) -> Tally
    requires most { span.most ≤ 100 }
    requires peer { query.now.peer ≡ None }
    ensures tally { IsTally span (wanted_numbers (V.archive look.old).owner query.now (V.archive look.old).entries) result }
    ensures archive { V.archive look.new ≡ V.archive look.old }
    ensures looks { V.looks look.new ≤ V.looks look.old + length (V.archive look.old).entries }
{
    let base = look.first() - 1;
    let count = look.last() - base;
    let mut tally = Tally::new(span);
    for at in 0..count {
        visit(look, query, true, base + at + 1, &mut tally);
    }
    tally
}
