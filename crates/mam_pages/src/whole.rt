//! The page where every entry matches. Its numbers follow from the archive's first and last.
ghost use Rattle.std.specs.Prelude.{◌≡◌, ℕ, ◌+◌, ◌-◌, ◌<◌, ◌≤◌, ◌^◌, if◌then◌else◌, IfOk};
ghost use Rattle.mam_pages.specs.Spans.{cut_by, numbers_after};

use crate::cut::PageCut;
use crate::span::Span;
use base_io::{ListOf, NoMemory, Numbers};
use std::alloc::Global;

/// The next so many numbers behind one.
#[tactic(auto, using(crate::proofs::Behind::numbers_push))]
fn next_numbers(alloc: Global, following: u64, count: u64) -> Result<Numbers, NoMemory>
    requires fits { following + count < 2 ^ 64 }
    requires few { count ≤ 100 }
    ensures { IfOk result (λ numbers. numbers.items ≡ numbers_after following count) }
{
    let mut numbers = ListOf::new(alloc);
    numbers.reserve(count as usize)?;
    for at in 0..count {
        numbers.push_reserved(following + at + 1);
    }
    Ok(numbers)
}

/// The number before the page's first, of so many numbers behind `before` and up to the span's end.
fn first_after(span: &Span, before: u64, count: u64) -> u64
    requires { count ≤ span.now.through }
    ensures { result ≡ (if span.now.backward then span.now.through - count else before) }
{
    if span.backward {
        span.through - count
    } else {
        before
    }
}

/// The place of the page's first number among all those behind `base`, or 0 where it has none.
fn position(base: u64, following: u64, count: u64) -> u64
    requires { 1 ≤ count → base ≤ following }
    ensures none { count ≡ 0 → result ≡ 0 }
    ensures some { 1 ≤ count → result ≡ following - base }
{
    if count == 0 { 0 } else { following - base }
}

/// The page out of all numbers from `first` to `last`. No entry is looked at.
pub(crate) fn cut_of_all(
    alloc: Global,
    span: &Span,
    first: u64,
    last: u64,
) -> Result<PageCut, NoMemory>
    requires first { 1 ≤ first }
    requires last { first ≤ last + 1 }
    requires most { span.now.most ≤ 100 }
    requires through { span.now.through ≤ last }
    ensures { IfOk result (λ cut. cut ≡ cut_by span.now (numbers_after (first - 1) (last - (first - 1)))) }
{
    let base = first - 1;
    let before = span.after.max(base);
    let found = span.through.saturating_sub(before);
    let count = found.min(span.most);
    let following = first_after(span, before, count);
    Ok(PageCut {
        numbers: next_numbers(alloc, following, count)?,
        first_index: position(base, following, count),
        count: last - base,
        complete: found <= span.most,
        backward: span.backward,
    })
}
