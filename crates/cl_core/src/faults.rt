//! Why a call of the user was refused.
use base_io::NoMemory;
use std::error::Error;
use std::fmt;

/// Why no client was made.
#[derive(Clone, Copy, Debug, PartialEq, Eq)]
pub enum ClientFault {
    /// The address has a resource, or no local part.
    BadAccount,
    /// The password is empty, or not printable ASCII.
    BadPassword,
    /// The resource is none of an address (RFC 7622, section 3.4).
    BadResource,
    /// Memory ran out.
    NoMemory,
}

/// Why a submission was refused. The client is as it was.
#[derive(Clone, Copy, Debug, PartialEq, Eq)]
pub enum SayFault {
    /// The text is empty, is longer than 10,000 bytes, or has a character that XML lacks (XML 1.0, section 2.2).
    BadText,
    /// No session stands.
    NotBound,
    /// 1,000 stanzas or more wait to be acknowledged.
    OutboxFull,
    /// Memory ran out.
    NoMemory,
}

/// Why a catch-up was refused. The client is as it was.
#[derive(Clone, Copy, Debug, PartialEq, Eq)]
pub enum CatchUpStart {
    /// No session stands.
    NotBound,
    /// 1,000 stanzas or more wait to be acknowledged.
    OutboxFull,
    /// A page is open already.
    Underway,
    /// Memory ran out.
    NoMemory,
}

impl From<NoMemory> for ClientFault {
    ghost use Rattle.std.specs.Prelude.{◌≡◌};
    ghost use Rattle.cl_core.specs.declared.faults.ClientFault.{ClientFault};

    ghost from_gives = { λ _ fault. fault ≡ ClientFault.NoMemory };

    fn from(_error: NoMemory) -> ClientFault {
        ClientFault::NoMemory
    }
}

impl From<NoMemory> for SayFault {
    ghost use Rattle.std.specs.Prelude.{◌≡◌};
    ghost use Rattle.cl_core.specs.declared.faults.SayFault.{SayFault};

    ghost from_gives = { λ _ fault. fault ≡ SayFault.NoMemory };

    fn from(_error: NoMemory) -> SayFault {
        SayFault::NoMemory
    }
}

impl From<NoMemory> for CatchUpStart {
    ghost use Rattle.std.specs.Prelude.{◌≡◌};
    ghost use Rattle.cl_core.specs.declared.faults.CatchUpStart.{CatchUpStart};

    ghost from_gives = { λ _ fault. fault ≡ CatchUpStart.NoMemory };

    fn from(_error: NoMemory) -> CatchUpStart {
        CatchUpStart::NoMemory
    }
}

impl fmt::Display for ClientFault {
    fn fmt<W: fmt::Write>(&self, f: &mut fmt::Formatter<W>) -> fmt::Result {
        f.write_str(match self {
            ClientFault::BadAccount => "the account is no bare address with a local part",
            ClientFault::BadPassword => "the password is empty or not printable ASCII",
            ClientFault::BadResource => "the resource is none",
            ClientFault::NoMemory => "out of memory",
        })
    }
}

impl fmt::Display for SayFault {
    fn fmt<W: fmt::Write>(&self, f: &mut fmt::Formatter<W>) -> fmt::Result {
        f.write_str(match self {
            SayFault::BadText => "the text can't be sent",
            SayFault::NotBound => "no session stands",
            SayFault::OutboxFull => "too many stanzas wait",
            SayFault::NoMemory => "out of memory",
        })
    }
}

impl fmt::Display for CatchUpStart {
    fn fmt<W: fmt::Write>(&self, f: &mut fmt::Formatter<W>) -> fmt::Result {
        f.write_str(match self {
            CatchUpStart::NotBound => "no session stands",
            CatchUpStart::OutboxFull => "too many stanzas wait",
            CatchUpStart::Underway => "a page is open already",
            CatchUpStart::NoMemory => "out of memory",
        })
    }
}

impl Error for ClientFault {}

impl Error for SayFault {}

impl Error for CatchUpStart {}
