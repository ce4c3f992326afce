//! Why a list is not the accounts of a server.
use base_io::NoMemory;
use std::error::Error;
use std::fmt;

/// What is wrong with a list of accounts: the first account that is wrong, by its place from 0, and of one account the
/// first of these.
#[derive(Clone, Copy, Debug, PartialEq, Eq)]
pub enum AccountsFault {
    /// The name is not a local part in normal form (RFC 7622, section 3.3).
    BadName(u32),
    /// An earlier account has that name.
    Twice(u32),
    /// Its credentials count no iteration, which RFC 5802, section 7, excludes.
    NoIterations(u32),
    /// Memory ran out.
    NoMemory,
}

impl fmt::Display for AccountsFault {
    fn fmt<W: fmt::Write>(&self, f: &mut fmt::Formatter<W>) -> fmt::Result {
        match self {
            AccountsFault::BadName(position) => {
                write!(f, "the name of account {position} is not in normal form")
            }
            AccountsFault::Twice(position) => {
                write!(f, "an earlier account has the name of account {position}")
            }
            AccountsFault::NoIterations(position) => {
                write!(f, "account {position} counts no iteration")
            }
            AccountsFault::NoMemory => f.write_str("out of memory"),
        }
    }
}

impl Error for AccountsFault {}

impl From<NoMemory> for AccountsFault {
    ghost use Rattle.std.specs.Prelude.{◌≡◌};
    ghost use Rattle.srv_login.specs.declared.accounts_fault.AccountsFault.TheVariants.{NoMemory};

    ghost from_gives = { λ _ fault. fault ≡ NoMemory };

    fn from(_e: NoMemory) -> AccountsFault {
        AccountsFault::NoMemory
    }
}
