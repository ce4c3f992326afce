//! Why a text is not read as a moment.
use std::error::Error;
use std::fmt;

/// Why a text is not read as a moment.
#[derive(Clone, Copy, Debug, PartialEq, Eq)]
pub enum StampFault {
    /// It is the stamp of a moment before 1970.
    BeforeEpoch,
    /// It is no stamp, or one of a moment past `LAST_MOMENT`.
    BadStamp,
}

impl fmt::Display for StampFault {
    fn fmt<W: fmt::Write>(&self, f: &mut fmt::Formatter<W>) -> fmt::Result {
        f.write_str(match self {
            StampFault::BeforeEpoch => "a moment before 1970",
            StampFault::BadStamp => "no time stamp",
        })
    }
}

impl Error for StampFault {}
