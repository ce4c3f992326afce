//! Why a query of an archive isn't answered.
use base_io::NoMemory;
use im_stanza::StanzaError;
use std::error::Error;
use std::fmt;

/// Why a query of an archive isn't answered.
#[derive(Drop, Debug)]
pub enum QueryFault {
    /// It is refused with this error.
    Refused(StanzaError),
    /// Memory ran out.
    NoMemory,
}

impl fmt::Display for QueryFault {
    fn fmt<W: fmt::Write>(&self, f: &mut fmt::Formatter<W>) -> fmt::Result {
        f.write_str(match self {
            QueryFault::Refused(_) => "the query is refused",
            QueryFault::NoMemory => "out of memory",
        })
    }
}

impl Error for QueryFault {}

impl From<NoMemory> for QueryFault {
    ghost use Rattle.std.specs.Prelude.{◌≡◌};
    ghost use Rattle.im_forwarding.specs.declared.query_fault.QueryFault.TheVariants.{NoMemory};

    ghost from_gives = { λ _ fault. fault ≡ NoMemory };

    fn from(_e: NoMemory) -> QueryFault {
        QueryFault::NoMemory
    }
}
