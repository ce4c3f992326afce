//! Why no page was begun, why a result was not taken, and why a page was not asked for anew.
use base_io::NoMemory;
use std::error::Error;
use std::fmt;

/// Why no page was begun. The log is as it was.
#[derive(Clone, Copy, Debug, PartialEq, Eq)]
pub enum BeginFault {
    /// A page is open already.
    Underway,
    /// Memory ran out.
    NoMemory,
}

/// Why a result was not taken. The log is as it was.
#[derive(Clone, Copy, Debug, PartialEq, Eq)]
pub enum ResultFault {
    /// No open page has this query id.
    Stranger,
    /// The page has as many results as were asked for, or more.
    Overrun,
    /// Memory ran out.
    NoMemory,
}

/// Why a page was not asked for anew. The log is as it was.
#[derive(Clone, Copy, Debug, PartialEq, Eq)]
pub enum RestartFault {
    /// No open page has this query id.
    Stranger,
    /// The page has no place: it was asked for from the first entry.
    NoPlace,
}

impl From<NoMemory> for BeginFault {
    ghost use Rattle.std.specs.Prelude.{◌≡◌};
    ghost use Rattle.mam_log.specs.declared.faults.BeginFault.{BeginFault};

    ghost from_gives = { λ _ fault. fault ≡ BeginFault.NoMemory };

    fn from(_error: NoMemory) -> BeginFault {
        BeginFault::NoMemory
    }
}

impl From<NoMemory> for ResultFault {
    ghost use Rattle.std.specs.Prelude.{◌≡◌};
    ghost use Rattle.mam_log.specs.declared.faults.ResultFault.{ResultFault};

    ghost from_gives = { λ _ fault. fault ≡ ResultFault.NoMemory };

    fn from(_error: NoMemory) -> ResultFault {
        ResultFault::NoMemory
    }
}

impl fmt::Display for BeginFault {
    fn fmt<W: fmt::Write>(&self, f: &mut fmt::Formatter<W>) -> fmt::Result {
        f.write_str(match self {
            BeginFault::Underway => "a page is open already",
            BeginFault::NoMemory => "out of memory",
        })
    }
}

impl fmt::Display for ResultFault {
    fn fmt<W: fmt::Write>(&self, f: &mut fmt::Formatter<W>) -> fmt::Result {
        f.write_str(match self {
            ResultFault::Stranger => "no open page has this query id",
            ResultFault::Overrun => "the page has as many results as were asked for",
            ResultFault::NoMemory => "out of memory",
        })
    }
}

impl fmt::Display for RestartFault {
    fn fmt<W: fmt::Write>(&self, f: &mut fmt::Formatter<W>) -> fmt::Result {
        f.write_str(match self {
            RestartFault::Stranger => "no open page has this query id",
            RestartFault::NoPlace => "the page was asked for from the first entry",
        })
    }
}

impl Error for BeginFault {}

impl Error for ResultFault {}

impl Error for RestartFault {}
