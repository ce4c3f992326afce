//! How a page of a log ended, and why one was not taken over.
use base_io::{NoMemory, Text};
use std::error::Error;
use std::fmt;

/// How a page ended.
#[derive(Clone, Copy, Debug, PartialEq, Eq)]
pub enum PageOutcome {
    /// Further entries remain.
    More,
    /// Nothing remains.
    Complete,
}

/// Why a page was not taken over.
#[derive(Debug, Drop)]
pub enum FinFault {
    /// No open page has this query id.
    Stranger,
    /// The last result told is not the last one that came.
    Mismatch {
        last: Option<Text>,
        got: Option<Text>,
    },
    /// This id stands twice in the page, or is in the log.
    Repeats(Text),
    /// The page is empty, and is not the last one.
    NoAdvance,
    /// Memory ran out.
    NoMemory,
}

impl From<NoMemory> for FinFault {
    ghost use Rattle.std.specs.Prelude.{◌≡◌};
    ghost use Rattle.mam_log.specs.declared.fin.FinFault.{FinFault};

    ghost from_gives = { λ _ fault. fault ≡ FinFault.NoMemory };

    fn from(_error: NoMemory) -> FinFault {
        FinFault::NoMemory
    }
}

impl fmt::Display for FinFault {
    fn fmt<W: fmt::Write>(&self, f: &mut fmt::Formatter<W>) -> fmt::Result {
        f.write_str(match self {
            FinFault::Stranger => "no open page has this query id",
            FinFault::Mismatch { .. } => "the last result told is not the last one that came",
            FinFault::Repeats(_) => "an id repeats",
            FinFault::NoAdvance => "an empty page is not the last one",
            FinFault::NoMemory => "out of memory",
        })
    }
}

impl Error for FinFault {}
