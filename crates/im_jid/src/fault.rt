//! Why a text is no address.
use base_io::NoMemory;
use std::alloc::AllocError;
use std::error::Error;
use std::fmt;

/// Why a text is no address. The parts are judged from the left: local part, domain, resource. Of one part `Empty`
/// comes first, then the part's own rule, then `TooLong` (RFC 7622, sections 3.2 to 3.4).
#[derive(Clone, Copy, Debug, PartialEq, Eq)]
pub enum JidFault {
    /// A part that its `@` or `/` announces, or the domain, is empty as given.
    Empty,
    /// The local part is not printable ASCII without space and without `"&'/:<>@`.
    BadLocal,
    /// The domain has no ASCII form by UTS 46 with the deny list STD3, or that form is empty or ends in a full stop.
    BadDomain,
    /// The resource in Unicode's form NFC has a character below U+20 or one of U+7F to U+9F.
    BadResource,
    /// A part has more than 1,023 bytes in normal form.
    TooLong,
    /// Memory ran out.
    NoMemory,
}

impl fmt::Display for JidFault {
    fn fmt<W: fmt::Write>(&self, f: &mut fmt::Formatter<W>) -> fmt::Result {
        f.write_str(match self {
            JidFault::Empty => "a part of the address is empty",
            JidFault::BadLocal => "the local part has a character that it may not have",
            JidFault::BadDomain => "the domain is not a domain name",
            JidFault::BadResource => "the resource has a control character",
            JidFault::TooLong => "a part of the address is too long",
            JidFault::NoMemory => "out of memory",
        })
    }
}

impl Error for JidFault {}

impl From<NoMemory> for JidFault {
    ghost use Rattle.std.specs.Prelude.{◌≡◌};
    ghost use Rattle.im_jid.specs.declared.fault.JidFault.TheVariants.{NoMemory};

    ghost from_gives = { λ _ fault. fault ≡ NoMemory };

    fn from(_e: NoMemory) -> JidFault {
        JidFault::NoMemory
    }
}

impl From<AllocError> for JidFault {
    ghost use Rattle.std.specs.Prelude.{◌≡◌};
    ghost use Rattle.im_jid.specs.declared.fault.JidFault.TheVariants.{NoMemory};

    ghost from_gives = { λ _ fault. fault ≡ NoMemory };

    fn from(_e: AllocError) -> JidFault {
        JidFault::NoMemory
    }
}
