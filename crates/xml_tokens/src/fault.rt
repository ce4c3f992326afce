//! Why a tag or a value isn't read: it is refused, or memory ran out.
use base_io::NoMemory;
use std::error::Error;
use std::fmt;

/// Why a tag or a value is refused.
#[derive(Clone, Copy, Debug, PartialEq, Eq)]
pub enum TagWhy {
    /// It refers to an entity that isn't predefined (RFC 6120, section 11.1, `restricted-xml`).
    Restricted,
    /// It isn't well formed by XML 1.0.
    NotWellFormed,
}

impl fmt::Display for TagWhy {
    fn fmt<W: fmt::Write>(&self, f: &mut fmt::Formatter<W>) -> fmt::Result {
        f.write_str(match self {
            TagWhy::Restricted => "restricted XML",
            TagWhy::NotWellFormed => "not well formed",
        })
    }
}

impl Error for TagWhy {}

/// Why a tag or a value isn't read.
#[derive(Clone, Copy, Debug, PartialEq, Eq)]
pub enum TagFault {
    /// It is refused.
    Refused(TagWhy),
    /// Memory ran out.
    NoMemory,
}

impl fmt::Display for TagFault {
    fn fmt<W: fmt::Write>(&self, f: &mut fmt::Formatter<W>) -> fmt::Result {
        match self {
            TagFault::Refused(why) => write!(f, "{}", why),
            TagFault::NoMemory => f.write_str("out of memory"),
        }
    }
}

impl Error for TagFault {}

impl From<NoMemory> for TagFault {
    ghost use Rattle.std.specs.Prelude.{◌≡◌};
    ghost use Rattle.xml_tokens.specs.declared.fault.TagFault.TheVariants.{NoMemory};

    ghost from_gives = { λ _ e. e ≡ NoMemory };

    fn from(_e: NoMemory) -> TagFault {
        TagFault::NoMemory
    }
}
