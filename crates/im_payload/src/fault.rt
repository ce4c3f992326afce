//! Why an element is not read as a payload, and which of its fields is wrong.
use base_io::NoMemory;
use std::error::Error;
use std::fmt;

/// A field of a payload.
#[derive(Clone, Copy, Debug, PartialEq, Eq)]
pub enum Field {
    H,
    Id,
    Previd,
    Mechanism,
    Payload,
    FormType,
    UnknownField,
    Peer,
    Start,
    End,
    PagePosition,
    Max,
    Stamp,
    Stanza,
    Jid,
    Count,
    Condition,
}

impl fmt::Display for Field {
    fn fmt<W: fmt::Write>(&self, f: &mut fmt::Formatter<W>) -> fmt::Result {
        f.write_str(match self {
            Field::H => "h",
            Field::Id => "id",
            Field::Previd => "previd",
            Field::Mechanism => "mechanism",
            Field::Payload => "payload",
            Field::FormType => "form type",
            Field::UnknownField => "unknown field",
            Field::Peer => "peer",
            Field::Start => "start",
            Field::End => "end",
            Field::PagePosition => "place",
            Field::Max => "max",
            Field::Stamp => "stamp",
            Field::Stanza => "stanza",
            Field::Jid => "jid",
            Field::Count => "count",
            Field::Condition => "condition",
        })
    }
}

/// Why an element is not read as a payload.
#[derive(Clone, Copy, Debug, PartialEq, Eq)]
pub enum ExtFault {
    /// Its name or its namespace is not the payload's.
    NotThis,
    /// It is the payload's element, and this field is the first that is wrong.
    Bad(Field),
    /// Memory ran out.
    NoMemory,
}

impl fmt::Display for ExtFault {
    fn fmt<W: fmt::Write>(&self, f: &mut fmt::Formatter<W>) -> fmt::Result {
        match self {
            ExtFault::NotThis => f.write_str("another element"),
            ExtFault::Bad(field) => write!(f, "bad field: {field}"),
            ExtFault::NoMemory => f.write_str("out of memory"),
        }
    }
}

impl Error for ExtFault {}

impl From<NoMemory> for ExtFault {
    ghost use Rattle.std.specs.Prelude.{◌≡◌};
    ghost use Rattle.im_payload.specs.declared.fault.ExtFault.TheVariants.{NoMemory};

    ghost from_gives = { λ _ fault. fault ≡ NoMemory };

    fn from(_e: NoMemory) -> ExtFault {
        ExtFault::NoMemory
    }
}
