//! The page that answers a query (XEP-0313, section 4.3; XEP-0059, sections 2.1 to 2.6).
//!
//! A page is found in one of three ways. The place becomes a span of numbers (`span_of`). Where nothing narrows
//! the query down, the first and the last number decide (`cut_of_all`). Where it asks only for an account, the
//! page is found from its place (`stretch`); only where the place's id is of an entry with another account is the
//! chain walked to its end. Else matching entries go by one after another (`tally_of_chain`, `tally_of_list`),
//! and a `Tally` keeps their count and the page's numbers in 100 slots. Memory is taken once, for the page's
//! numbers.
//!
//! The definition of a page is tried at pages worked out by hand; there is no second implementation to compare with.
ghost use Rattle.std.specs.Prelude.{◌≡◌, ℕ, ◌+◌, ◌*◌, ◌<◌, ◌≤◌, ◌^◌, ◌↔◌, List, Some, None, true, false, length, IfOk, IsErrOf};
ghost use Rattle.mam_archive.specs.Peers.{bare_form};
ghost use Rattle.mam_pages.specs.Kept.{AreConsecutive, last_number};
ghost use Rattle.mam_pages.specs.Matches.{matching};
ghost use Rattle.mam_pages.specs.PageOf.{most_of, page_of};
ghost use Rattle.mam_pages.specs.Parties.{is_full};
ghost use Rattle.mam_pages.specs.Spans.{IsNumbered, cut_by, numbers_of};
ghost use Rattle.mam_pages.specs.Looks.{entries_with, is_place_with};
ghost use Rattle.mam_pages.specs.Stretches.{IsOpenSpan, edge_of, is_edge_with, is_plain};

use crate::cut::{PageCut, PageFault};
use crate::looks::Look;
use crate::passing::asks_no_more;
use crate::query::PageQuery;
use crate::span::{Span, span_of};
use crate::stretch::cut_of_account;
use crate::walks::{tally_of_chain, tally_of_list};
use crate::whole::cut_of_all;
use base_io::NoMemory;
use std::alloc::Global;

/// The page out of the entries with an account.
fn cut_of_chain<V: Look>(
    alloc: Global,
    look: &mut V,
    query: &PageQuery,
    peer: &str,
    span: Span,
) -> Result<PageCut, NoMemory>
    requires most { span.most ≤ 100 }
    requires peer { query.now.peer ≡ Some peer.now }
    requires consecutive { AreConsecutive (V.archive look.old).entries }
    requires few { length (V.archive look.old).entries < 2 ^ 64 }
    ensures cut { IfOk result (λ cut. cut ≡ cut_by span (numbers_of (matching (V.archive look.old) query.now))) }
    ensures archive { V.archive look.new ≡ V.archive look.old }
    ensures looks { V.looks look.new ≤ V.looks look.old + (2 * entries_with (bare_form peer.now) (V.archive look.old) + 1) }
{
    tally_of_chain(look, query, peer, span).cut(alloc)
}

/// The page out of the entries with an account: found from its place where each of them matches, else out of the chain.
fn cut_of_peer<V: Look>(
    alloc: Global,
    look: &mut V,
    query: &PageQuery,
    peer: &str,
    span: Span,
    last: u64,
) -> Result<PageCut, NoMemory>
    requires most { span.most ≤ 100 }
    requires peer { query.now.peer ≡ Some peer.now }
    requires consecutive { AreConsecutive (V.archive look.old).entries }
    requires few { length (V.archive look.old).entries < 2 ^ 64 }
    requires last { last_number (V.archive look.old).entries ≡ last }
    requires reach { IsOpenSpan last span }
    ensures cut { IfOk result (λ cut. cut ≡ cut_by span (numbers_of (matching (V.archive look.old) query.now))) }
    ensures archive { V.archive look.new ≡ V.archive look.old }
    ensures looks { V.looks look.new ≤ V.looks look.old + (2 * entries_with (bare_form peer.now) (V.archive look.old) + 1) }
    ensures bounded { is_plain query.now ≡ true → is_edge_with (V.archive look.old) peer.now (edge_of span last) ≡ true → V.looks look.new ≤ V.looks look.old + (span.most + 3) }
{
    if asks_no_more(query) {
        cut_of_account(alloc, look, query, peer, span, last)
    } else {
        cut_of_chain(alloc, look, query, peer, span)
    }
}

/// The page out of the whole list.
fn cut_of_list<V: Look>(
    alloc: Global,
    look: &mut V,
    query: &PageQuery,
    span: Span,
    first: u64,
    last: u64,
) -> Result<PageCut, NoMemory>
    requires most { span.most ≤ 100 }
    requires through { span.through ≤ last }
    requires peer { query.now.peer ≡ None }
    requires numbered { IsNumbered first last (V.archive look.old).entries }
    ensures cut { IfOk result (λ cut. cut ≡ cut_by span (numbers_of (matching (V.archive look.old) query.now))) }
    ensures archive { V.archive look.new ≡ V.archive look.old }
    ensures looks { V.looks look.new ≤ V.looks look.old + length (V.archive look.old).entries }
    ensures unfiltered { query.now.start ≡ None → query.now.end ≡ None → V.looks look.new ≡ V.looks look.old }
{
    if asks_no_more(query) {
        cut_of_all(alloc, &span, first, last)
    } else {
        tally_of_list(look, query, span).cut(alloc)
    }
}

/// The page out of a span.
fn cut_out<V: Look>(
    alloc: Global,
    look: &mut V,
    query: &PageQuery,
    span: Span,
    first: u64,
    last: u64,
) -> Result<PageCut, NoMemory>
    requires most { span.most ≤ 100 }
    requires reach { IsOpenSpan last span }
    requires numbered { IsNumbered first last (V.archive look.old).entries }
    ensures cut { IfOk result (λ cut. cut ≡ cut_by span (numbers_of (matching (V.archive look.old) query.now))) }
    ensures archive { V.archive look.new ≡ V.archive look.old }
    ensures bounded { (peer : List ℕ) → query.now.peer ≡ Some peer → is_plain query.now ≡ true → is_edge_with (V.archive look.old) peer (edge_of span last) ≡ true →
        V.looks look.new ≤ V.looks look.old + (span.most + 3) }
    ensures account { (peer : List ℕ) → query.now.peer ≡ Some peer → V.looks look.new ≤ V.looks look.old + (2 * entries_with (bare_form peer) (V.archive look.old) + 1) }
    ensures everybody { query.now.peer ≡ None → V.looks look.new ≤ V.looks look.old + length (V.archive look.old).entries }
    ensures unfiltered { query.now.peer ≡ None → query.now.start ≡ None → query.now.end ≡ None → V.looks look.new ≡ V.looks look.old }
{
    match &query.peer {
        Some(peer) => cut_of_peer(alloc, look, query, peer.as_str(), span, last),
        None => cut_of_list(alloc, look, query, span, first, last),
    }
}

/// The page of an archive's entries that answers a query (XEP-0313 section 4.3, XEP-0059 sections 2.1 to 2.6).
///
/// Among the entries that match `peer`, `start` and `end`, the candidates are all where `position` is `First` or
/// `Last`, and else those behind or before the entry with its id. The page has the first of them, or for `Before` and
/// `Last` the last: at most `max`, and at most 100. `count` is of all entries that match, wherever the page stands
/// among them. `NotFound` comes exactly where the id is no id of an entry of the archive, whether or not of one that
/// matches, and `NoMemory` where no memory is left for the page's numbers. The archive stays as it was.
///
/// Where `peer` is given, two looks are taken at most for each entry with that account, and one more; without `peer`
/// at most one for each entry, and none where nothing else narrows the query down. Where `peer` has no resource and
/// neither `start` nor `end` is given, the page is found from its place: one look for each entry that it may have, and
/// three more, however many entries stand outside it, if `position` is `First` or `Last` or its id is that of an entry
/// with the peer.
pub fn page<V: Look>(alloc: Global, look: &mut V, query: &PageQuery) -> Result<PageCut, PageFault>
    ensures page { IfOk result (λ cut. page_of (V.archive look.old) query.now ≡ Some cut) }
    ensures not_found { IsErrOf result PageFault.NotFound ↔ (page_of (V.archive look.old) query.now ≡ None) }
    ensures archive { V.archive look.new ≡ V.archive look.old }
    // k entries have this account: 2k + 1
    ensures bare { (peer : List ℕ) → query.now.peer ≡ Some peer → is_full peer ≡ false →
        V.looks look.new ≤ V.looks look.old + (2 * entries_with peer (V.archive look.old) + 1) }
    ensures account { (peer : List ℕ) → query.now.peer ≡ Some peer →
        V.looks look.new ≤ V.looks look.old + (2 * entries_with (bare_form peer) (V.archive look.old) + 1) }
    // the page is found from its place
    ensures bounded { (peer : List ℕ) → query.now.peer ≡ Some peer → is_full peer ≡ false → query.now.start ≡ None → query.now.end ≡ None →
        is_place_with (V.archive look.old) peer query.now.position ≡ true → V.looks look.new ≤ V.looks look.old + (most_of query.now.max + 3) }
    ensures everybody { query.now.peer ≡ None → V.looks look.new ≤ V.looks look.old + length (V.archive look.old).entries }
    ensures unfiltered { query.now.peer ≡ None → query.now.start ≡ None → query.now.end ≡ None → V.looks look.new ≡ V.looks look.old }
{
    let first = look.first();
    let last = look.last();
    match span_of(query, first, last) {
        Some(span) => Ok(cut_out(alloc, look, query, span, first, last)?),
        None => Err(PageFault::NotFound),
    }
}
