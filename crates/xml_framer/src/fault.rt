use base_io::NoMemory;
use std::alloc::{AllocError, AllocFailed};
use std::error::Error;
use std::fmt;

/// What is wrong with a stream. Where one byte decides several, `TooLong` comes first, then `Encoding`, then the others
/// in this order.
#[derive(Clone, Copy, Debug, PartialEq, Eq)]
pub enum Why {
    /// A comment, a processing instruction, a markup declaration, or a reference to an entity that isn't predefined
    /// (RFC 6120, section 11.1).
    Restricted,
    /// It isn't well formed by XML 1.0 and Namespaces in XML 1.0, or may not stand there.
    NotWellFormed,
    /// It isn't UTF-8, or says that it isn't (RFC 6120, section 11.6).
    Encoding,
    /// An element, a header's tag or a declaration has more bytes than `Limits.bytes`.
    TooLong,
    /// Elements lie deeper in one another than `Limits.depth`.
    TooDeep,
    /// A tag has more attributes than `Limits.attributes`.
    TooManyAttributes,
    /// A tag declares a namespace name longer than `Limits.namespace_bytes`.
    LongNamespace,
}

/// The first fault of a stream: its place, which is that of the first byte of its token, counted from 0, or 2^64 - 1
/// where that is less; and what is wrong.
#[derive(Clone, Copy, Debug, PartialEq, Eq)]
pub struct Fault {
    pub at: u64,
    pub why: Why,
}

/// Why a framer takes no more bytes.
#[derive(Clone, Copy, Debug, PartialEq, Eq)]
pub enum FeedFault {
    /// The stream has this fault.
    Fault(Fault),
    /// Memory ran out, in this call or an earlier one.
    NoMemory,
}

impl fmt::Display for Why {
    fn fmt<W: fmt::Write>(&self, f: &mut fmt::Formatter<W>) -> fmt::Result {
        f.write_str(match self {
            Why::Restricted => "restricted XML",
            Why::NotWellFormed => "not well formed",
            Why::Encoding => "not UTF-8",
            Why::TooLong => "too long",
            Why::TooDeep => "too deep",
            Why::TooManyAttributes => "too many attributes",
            Why::LongNamespace => "a namespace name that is too long",
        })
    }
}

impl fmt::Display for FeedFault {
    fn fmt<W: fmt::Write>(&self, f: &mut fmt::Formatter<W>) -> fmt::Result {
        match self {
            FeedFault::Fault(fault) => write!(f, "{} at byte {}", fault.why, fault.at),
            FeedFault::NoMemory => f.write_str("out of memory"),
        }
    }
}

impl Error for FeedFault {}

impl From<AllocError> for FeedFault {
    ghost use Rattle.std.specs.Prelude.{◌≡◌};
    ghost use Rattle.xml_framer.specs.declared.fault.FeedFault.TheVariants.{NoMemory};

    ghost from_gives = { λ _ e. e ≡ NoMemory };

    fn from(_e: AllocError) -> FeedFault {
        FeedFault::NoMemory
    }
}

impl<T: Drop> From<AllocFailed<T>> for FeedFault {
    ghost use Rattle.std.specs.Prelude.{◌≡◌};
    ghost use Rattle.xml_framer.specs.declared.fault.FeedFault.TheVariants.{NoMemory};

    ghost from_gives = { λ _ e. e ≡ NoMemory };

    fn from(_e: AllocFailed<T>) -> FeedFault {
        FeedFault::NoMemory
    }
}

impl From<NoMemory> for FeedFault {
    ghost use Rattle.std.specs.Prelude.{◌≡◌};
    ghost use Rattle.xml_framer.specs.declared.fault.FeedFault.TheVariants.{NoMemory};

    ghost from_gives = { λ _ e. e ≡ NoMemory };

    fn from(_e: NoMemory) -> FeedFault {
        FeedFault::NoMemory
    }
}
