//! Where the candidates for a page stand, by their numbers.
ghost use Rattle.std.specs.Prelude.{◌≡◌, ◌≤◌, ◌<◌, IfSome};
ghost use Rattle.mam_pages.specs.PageOf.{most_of};
ghost use Rattle.mam_pages.specs.Spans.{IsNumberOf, IsSpanOf};
ghost use Rattle.mam_pages.specs.Stretches.{IsEdgeOf, IsOpenSpan};

use crate::query::{PagePosition, PageQuery};
use mam_archive::{ids_differ, number_of};

/// The most entries of a page.
pub const MOST_RESULTS: u32 = 100;

/// Where the candidates for a page stand: their numbers are above `after` and at most `through`. The page has the
/// first `most` of them, or the last where it is found `backward`.
#[derive(Clone, Copy)]
pub(crate) struct Span {
    pub after: u64,
    pub through: u64,
    pub most: u64,
    pub backward: bool,
}

/// The most entries of a page.
fn most(max: Option<u32>) -> u64
    ensures { result ≡ most_of max }
{
    u64::from(max.unwrap_or(MOST_RESULTS).min(MOST_RESULTS))
}

/// The number of the entry with an id, in an archive whose entries are numbered from `first` to `last`.
fn number_kept(id: &str, first: u64, last: u64) -> Option<u64>
    ensures number { IsNumberOf id.now first last result }
    ensures kept { IfSome result (λ n. (1 ≤ n) × (n ≤ last)) }
{
    ids_differ();
    let number = number_of(id)?;
    if number < first || last < number {
        return None;
    }
    Some(number)
}

/// Where the candidates stand in an archive whose entries are numbered from `first` to `last`. `None` where the id is
/// no entry's.
pub(crate) fn span_of(query: &PageQuery, first: u64, last: u64) -> Option<Span>
    ensures span { IsSpanOf query.now first last result }
    ensures through { IfSome result (λ span. span.through ≤ last) }
    ensures most { IfSome result (λ span. span.most ≤ 100) }
    ensures max { IfSome result (λ span. span.most ≡ most_of query.now.max) }
    ensures reach { IfSome result (λ span. IsOpenSpan last span) }
    ensures edge { IfSome result (λ span. IsEdgeOf query.now first last span) }
{
    let most = most(query.max);
    let (after, through, backward) = match &query.position {
        PagePosition::First => (0, last, false),
        PagePosition::After(id) => (number_kept(id.as_str(), first, last)?, last, false),
        PagePosition::Before(id) => (0, number_kept(id.as_str(), first, last)? - 1, true),
        PagePosition::Last => (0, last, true),
    };
    Some(Span {
        after,
        through,
        most,
        backward,
    })
}
