//! Why a start tag isn't read: it is refused, or memory ran out.
use base_io::NoMemory;
use std::error::Error;
use std::fmt;

/// Why a start tag is refused. Where several fit, it is the first in this order.
#[derive(Clone, Copy, Debug, PartialEq, Eq)]
pub enum StartWhy {
    /// It refers to an entity that isn't predefined (RFC 6120, section 11.1, `restricted-xml`).
    Restricted,
    /// It isn't well formed by XML 1.0 and Namespaces in XML 1.0.
    NotWellFormed,
    /// It has more attributes than the limit, namespace declarations among them.
    TooManyAttributes,
    /// It declares a namespace name whose written length is past the limit.
    LongNamespace,
}

impl fmt::Display for StartWhy {
    fn fmt<W: fmt::Write>(&self, f: &mut fmt::Formatter<W>) -> fmt::Result {
        f.write_str(match self {
            StartWhy::Restricted => "restricted XML",
            StartWhy::NotWellFormed => "not well formed",
            StartWhy::TooManyAttributes => "too many attributes",
            StartWhy::LongNamespace => "a namespace name that is too long",
        })
    }
}

impl Error for StartWhy {}

/// Why a start tag isn't read.
#[derive(Clone, Copy, Debug, PartialEq, Eq)]
pub enum StartFault {
    /// It is refused.
    Refused(StartWhy),
    /// Memory ran out.
    NoMemory,
}

impl fmt::Display for StartFault {
    fn fmt<W: fmt::Write>(&self, f: &mut fmt::Formatter<W>) -> fmt::Result {
        match self {
            StartFault::Refused(why) => write!(f, "{}", why),
            StartFault::NoMemory => f.write_str("out of memory"),
        }
    }
}

impl Error for StartFault {}

impl From<NoMemory> for StartFault {
    ghost use Rattle.std.specs.Prelude.{◌≡◌};
    ghost use Rattle.xml_names.specs.declared.fault.StartFault.TheVariants.{NoMemory};

    ghost from_gives = { λ _ e. e ≡ NoMemory };

    fn from(_e: NoMemory) -> StartFault {
        StartFault::NoMemory
    }
}
