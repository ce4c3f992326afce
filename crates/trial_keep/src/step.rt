//! What a line asks for.
use crate::stop::Stop;
use std::alloc::Global;

/// What a line asks for.
#[derive(Clone, Copy, Debug)]
pub(crate) enum Step {
    /// Writes all that is kept.
    Load,
    /// Writes the number of the next session, and of each archive its last number and how many entries it has.
    Count,
    /// Makes so many commits, each of `each` entries.
    Commit { commits: u64, each: u64, keep: u32 },
    /// Makes one commit of one entry with a number.
    Append { number: u64, keep: u32 },
}

fn commit(commits: &str, each: &str, keep: &str) -> Option<Step> {
    Some(Step::Commit {
        commits: commits.parse().ok()?,
        each: each.parse().ok()?,
        keep: keep.parse().ok()?,
    })
}

fn append(number: &str, keep: &str) -> Option<Step> {
    Some(Step::Append {
        number: number.parse().ok()?,
        keep: keep.parse().ok()?,
    })
}

fn of_words(words: &[&str]) -> Option<Step> {
    match *words {
        ["load"] => Some(Step::Load),
        ["count"] => Some(Step::Count),
        ["commit", commits, each, keep] => commit(commits, each, keep),
        ["append", number, keep] => append(number, keep),
        _ => None,
    }
}

/// The step of a line. `Line` comes where it is none.
pub(crate) fn step_of(alloc: Global, line: &str) -> Result<Step, Stop> {
    let words: Vec<&str> = line.split(' ').collect(alloc)?;
    match of_words(words.as_slice()) {
        Some(step) => Ok(step),
        None => Err(Stop::Line),
    }
}
