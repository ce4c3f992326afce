//! A page of the entries with an account, where each of them matches: it is found from its place, and no more entries
//! are walked than it has.
ghost use Rattle.std.specs.Prelude.{◌≡◌, ℕ, ◌+◌, ◌-◌, ◌*◌, ◌<◌, ◌≤◌, ◌^◌, min, List, Some, None, true, take, drop, length, slice_get, if◌then◌else◌, IfOk, IfSome, IfNone};
ghost use Rattle.mam_archive.specs.Peers.{bare_form, chain_ends, next_of, previous_of};
ghost use Rattle.mam_pages.specs.Kept.{AreConsecutive, last_number};
ghost use Rattle.mam_pages.specs.Looks.{entries_with, is_number_with};
ghost use Rattle.mam_pages.specs.Matches.{matching};
ghost use Rattle.mam_pages.specs.Spans.{Rises, cut_by, numbers_of, portion_by, within};
ghost use Rattle.mam_pages.specs.Stretches.{IsEndsOf, IsOpenSpan, IsStretch, chain_numbers, edge_of, first_index_of, is_edge_with, is_plain, number_or, stretch_at};

use crate::cut::PageCut;
use crate::looks::Look;
use crate::query::PageQuery;
use crate::span::Span;
use crate::walks::tally_from;
use crate::window::{SLOTS, push_all};
use base_io::{ListOf, NoMemory, Numbers};
use mam_archive::Chain;
use std::alloc::Global;

/// The candidates for a page among the `count` entries of a chain: `skipped` entries stand before them, `found` is how
/// many they are, and `number` is that of the one nearest to the place, if the page is to have one.
#[derive(Clone, Copy)]
pub(crate) struct Stretch {
    pub number: u64,
    pub skipped: u64,
    pub found: u64,
    pub count: u64,
}

/// The number of the entry beside which the candidates begin, or `None` where they begin at an end of the archive.
fn edge(span: &Span, last: u64) -> Option<u64>
    ensures { result ≡ edge_of span.now last }
{
    if span.backward {
        if span.through < last {
            Some(span.through + 1)
        } else {
            None
        }
    } else if span.after > 0 {
        Some(span.after)
    } else {
        None
    }
}

/// The number of the last entry of a chain where the page is found backward, else of the first.
fn end_of(chain: &Chain, span: &Span) -> u64
    ensures { result ≡ (if span.now.backward then chain.now.last else chain.now.first) }
{
    if span.backward {
        chain.last
    } else {
        chain.first
    }
}

/// The stretch where all entries of a chain are candidates.
fn whole_stretch(chain: &Chain, span: &Span) -> Stretch
    ensures stretch { (numbers : List ℕ) → (last : ℕ) → Rises 0 last numbers → IsEndsOf numbers chain.now → IsOpenSpan last span.now →
        edge_of span.now last ≡ None → IsStretch span.now numbers result }
    ensures all { (result.skipped ≡ 0) × (result.found ≡ chain.now.count) × (result.count ≡ chain.now.count) }
{
    Stretch {
        number: end_of(chain, span),
        skipped: 0,
        found: chain.count,
        count: chain.count,
    }
}

/// The stretch beside the entry that has this index among so many, with another number.
fn beside(span: &Span, number: u64, index: u64, count: u64) -> Stretch
    requires { index < count }
    ensures { result ≡ stretch_at span.now number index count }
{
    if span.backward {
        Stretch {
            number,
            skipped: 0,
            found: index,
            count,
        }
    } else {
        Stretch {
            number,
            skipped: index + 1,
            found: count - index - 1,
            count,
        }
    }
}

/// The number of the next entry with the same peer, or backward of the previous one, and this number where there is none.
fn neighbour<V: Look>(look: &mut V, span: &Span, number: u64) -> u64
    ensures number { result ≡ number_or (if span.now.backward then previous_of (V.archive look.old).owner number (V.archive look.old).entries else next_of (V.archive look.old).owner number (V.archive look.old).entries) number }
    ensures archive { V.archive look.new ≡ V.archive look.old }
    ensures looks { V.looks look.new ≤ V.looks look.old + 1 }
{
    if span.backward {
        look.previous_of(number).unwrap_or(number)
    } else {
        look.next_of(number).unwrap_or(number)
    }
}

/// The stretch beside the entry with a number, and `None` where that entry is with another account.
fn stretch_beside<V: Look>(
    look: &mut V,
    peer: &str,
    chain: &Chain,
    span: &Span,
    number: u64,
) -> Option<Stretch>
    requires consecutive { AreConsecutive (V.archive look.old).entries }
    requires chain { chain_ends (V.archive look.old).owner peer.now (V.archive look.old).entries ≡ Some chain.now }
    requires reach { IsOpenSpan (last_number (V.archive look.old).entries) span.now }
    requires edge { edge_of span.now (last_number (V.archive look.old).entries) ≡ Some number }
    ensures stretch { IfSome result (λ s. IsStretch span.now (chain_numbers (V.archive look.old) peer.now) s) }
    ensures fewer { IfSome result (λ s. s.found + 1 ≤ s.count) }
    ensures there { IfNone result (is_number_with (V.archive look.old) peer.now number ≡ true → ⊥) }
    ensures archive { V.archive look.new ≡ V.archive look.old }
    ensures some { IfSome result (λ s. V.looks look.new ≤ V.looks look.old + (2 + min 1 (min s.found span.now.most))) }
    ensures none { IfNone result (V.looks look.new ≤ V.looks look.old + 1) }
{
    if !look.is_with(number, peer) {
        return None;
    }
    let index = look.index_of(number).unwrap_or(0);
    let stretch = beside(span, number, index, chain.count);
    if stretch.found.min(span.most) == 0 {
        return Some(stretch);
    }
    let nearest = neighbour(look, span, number);
    Some(beside(span, nearest, index, chain.count))
}

/// The numbers of so many entries with the same peer, from one of them on.
fn numbers_from<V: Look>(
    alloc: Global,
    look: &mut V,
    first: u64,
    count: u64,
) -> Result<Numbers, NoMemory>
    requires some { 1 ≤ count }
    requires few { count ≤ 100 }
    requires consecutive { AreConsecutive (V.archive look.old).entries }
    ensures numbers { (peer : List ℕ) → (position : ℕ) → slice_get (chain_numbers (V.archive look.old) peer) position ≡ Some first → position + count ≤ length (chain_numbers (V.archive look.old) peer) →
        IfOk result (λ numbers. numbers.items ≡ take count (drop position (chain_numbers (V.archive look.old) peer))) }
    ensures archive { V.archive look.new ≡ V.archive look.old }
    ensures looks { V.looks look.new + 1 ≤ V.looks look.old + count }
{
    let mut numbers = ListOf::new(alloc);
    numbers.reserve(count as usize)?;
    numbers.push_reserved(first);
    let mut number = first;
    for _at in 0..count - 1 {
        number = look.next_of(number).unwrap_or(number);
        numbers.push_reserved(number);
    }
    Ok(numbers)
}

/// Fills so many slots from the last one on: with the number of an entry, and those of the entries before it with the
/// same peer.
fn fill_back<V: Look>(look: &mut V, last: u64, slots: &mut [u64; SLOTS], count: usize)
    requires some { 1 ≤ count }
    requires few { count ≤ 100 }
    requires consecutive { AreConsecutive (V.archive look.old).entries }
    ensures slots { (peer : List ℕ) → (position : ℕ) → slice_get (chain_numbers (V.archive look.old) peer) position ≡ Some last → count ≤ position + 1 →
        take count slots.new ≡ drop (position + 1 - count) (take (position + 1) (chain_numbers (V.archive look.old) peer)) }
    ensures archive { V.archive look.new ≡ V.archive look.old }
    ensures looks { V.looks look.new + 1 ≤ V.looks look.old + count }
{
    let mut number = last;
    slots[count - 1] = last;
    for at in 0..count - 1 {
        number = look.previous_of(number).unwrap_or(number);
        slots[count - 2 - at] = number;
    }
}

/// The numbers of so many entries with the same peer, up to one of them.
fn numbers_up_to<V: Look>(
    alloc: Global,
    look: &mut V,
    last: u64,
    count: u64,
) -> Result<Numbers, NoMemory>
    requires some { 1 ≤ count }
    requires few { count ≤ 100 }
    requires consecutive { AreConsecutive (V.archive look.old).entries }
    ensures numbers { (peer : List ℕ) → (position : ℕ) → slice_get (chain_numbers (V.archive look.old) peer) position ≡ Some last → count ≤ position + 1 →
        IfOk result (λ numbers. numbers.items ≡ drop (position + 1 - count) (take (position + 1) (chain_numbers (V.archive look.old) peer))) }
    ensures archive { V.archive look.new ≡ V.archive look.old }
    ensures looks { V.looks look.new + 1 ≤ V.looks look.old + count }
{
    let mut numbers = ListOf::new(alloc);
    numbers.reserve(count as usize)?;
    let mut slots = [0; SLOTS];
    fill_back(look, last, &mut slots, count as usize);
    push_all(&mut numbers, &slots[..count as usize]);
    Ok(numbers)
}

/// The place of the page's first entry among all of the chain, or 0 where the page has none.
fn first_index(span: &Span, stretch: &Stretch, count: u64) -> u64
    requires room { stretch.now.skipped + stretch.now.found ≤ stretch.now.count }
    requires count { count ≤ stretch.now.found }
    ensures { result ≡ first_index_of span.now stretch.now count }
{
    if count == 0 {
        0
    } else if span.backward {
        stretch.skipped + (stretch.found - count)
    } else {
        stretch.skipped
    }
}

/// The numbers of the page out of a stretch, which has so many.
fn numbers_of_stretch<V: Look>(
    alloc: Global,
    look: &mut V,
    span: &Span,
    stretch: &Stretch,
    count: u64,
) -> Result<Numbers, NoMemory>
    requires few { count ≤ 100 }
    requires consecutive { AreConsecutive (V.archive look.old).entries }
    requires count { count ≡ min stretch.now.found span.now.most }
    ensures numbers { (peer : List ℕ) → (last : ℕ) → IsOpenSpan last span.now → IsStretch span.now (chain_numbers (V.archive look.old) peer) stretch.now →
        IfOk result (λ numbers. numbers.items ≡ portion_by span.now (within span.now (chain_numbers (V.archive look.old) peer))) }
    ensures archive { V.archive look.new ≡ V.archive look.old }
    ensures looks { V.looks look.new ≤ V.looks look.old + (count - 1) }
{
    if count == 0 {
        return Ok(ListOf::new(alloc));
    }
    if span.backward {
        numbers_up_to(alloc, look, stretch.number, count)
    } else {
        numbers_from(alloc, look, stretch.number, count)
    }
}

/// The page out of a stretch.
fn cut_of_stretch<V: Look>(
    alloc: Global,
    look: &mut V,
    span: &Span,
    stretch: &Stretch,
) -> Result<PageCut, NoMemory>
    requires most { span.now.most ≤ 100 }
    requires consecutive { AreConsecutive (V.archive look.old).entries }
    requires room { stretch.now.skipped + stretch.now.found ≤ stretch.now.count }
    ensures cut { (peer : List ℕ) → (last : ℕ) → IsOpenSpan last span.now → IsStretch span.now (chain_numbers (V.archive look.old) peer) stretch.now →
        IfOk result (λ cut. cut ≡ cut_by span.now (chain_numbers (V.archive look.old) peer)) }
    ensures archive { V.archive look.new ≡ V.archive look.old }
    ensures looks { V.looks look.new ≤ V.looks look.old + (min stretch.now.found span.now.most - 1) }
{
    let count = stretch.found.min(span.most);
    let numbers = numbers_of_stretch(alloc, look, span, stretch, count)?;
    Ok(PageCut {
        numbers,
        first_index: first_index(span, stretch, count),
        count: stretch.count,
        complete: stretch.found <= span.most,
        backward: span.backward,
    })
}

/// The page out of the entries with an account, whose candidates begin beside the entry with a number. Where that entry
/// is with another account, the chain is walked to the end.
fn cut_beside<V: Look>(
    alloc: Global,
    look: &mut V,
    query: &PageQuery,
    peer: &str,
    span: Span,
    chain: &Chain,
    number: u64,
) -> Result<PageCut, NoMemory>
    requires most { span.most ≤ 100 }
    requires peer { query.now.peer ≡ Some peer.now }
    requires plain { is_plain query.now ≡ true }
    requires consecutive { AreConsecutive (V.archive look.old).entries }
    requires few { length (V.archive look.old).entries < 2 ^ 64 }
    requires chain { chain_ends (V.archive look.old).owner peer.now (V.archive look.old).entries ≡ Some chain.now }
    requires reach { IsOpenSpan (last_number (V.archive look.old).entries) span }
    requires edge { edge_of span (last_number (V.archive look.old).entries) ≡ Some number }
    ensures cut { IfOk result (λ cut. cut ≡ cut_by span (numbers_of (matching (V.archive look.old) query.now))) }
    ensures archive { V.archive look.new ≡ V.archive look.old }
    ensures looks { V.looks look.new ≤ V.looks look.old + 2 * entries_with peer.now (V.archive look.old) }
    ensures bounded { is_number_with (V.archive look.old) peer.now number ≡ true → V.looks look.new ≤ V.looks look.old + (span.most + 2) }
{
    match stretch_beside(look, peer, chain, &span, number) {
        Some(stretch) => cut_of_stretch(alloc, look, &span, &stretch),
        None => tally_from(look, query, peer, Some(chain.first), span).cut(alloc),
    }
}

/// The page out of the entries with an account, where each of them matches.
pub(crate) fn cut_of_account<V: Look>(
    alloc: Global,
    look: &mut V,
    query: &PageQuery,
    peer: &str,
    span: Span,
    last: u64,
) -> Result<PageCut, NoMemory>
    requires most { span.most ≤ 100 }
    requires peer { query.now.peer ≡ Some peer.now }
    requires plain { is_plain query.now ≡ true }
    requires consecutive { AreConsecutive (V.archive look.old).entries }
    requires few { length (V.archive look.old).entries < 2 ^ 64 }
    requires last { last_number (V.archive look.old).entries ≡ last }
    requires reach { IsOpenSpan last span }
    ensures cut { IfOk result (λ cut. cut ≡ cut_by span (numbers_of (matching (V.archive look.old) query.now))) }
    ensures archive { V.archive look.new ≡ V.archive look.old }
    ensures looks { V.looks look.new ≤ V.looks look.old + (2 * entries_with peer.now (V.archive look.old) + 1) }
    ensures bounded { is_edge_with (V.archive look.old) peer.now (edge_of span last) ≡ true → V.looks look.new ≤ V.looks look.old + (span.most + 3) }
{
    let Some(chain) = look.chain(peer) else {
        return Ok(PageCut {
            numbers: ListOf::new(alloc),
            first_index: 0,
            count: 0,
            complete: true,
            backward: span.backward,
        });
    };
    match edge(&span, last) {
        Some(number) => cut_beside(alloc, look, query, peer, span, &chain, number),
        None => cut_of_stretch(alloc, look, &span, &whole_stretch(&chain, &span)),
    }
}
