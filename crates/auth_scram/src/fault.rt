//! Why a message is refused.
ghost use Rattle.std.specs.Prelude.{◌≡◌};
ghost use Rattle.auth_scram.specs.Positions.{malformed};

use base_io::NoMemory;
use std::error::Error;
use std::fmt;

/// Why a SCRAM message or name is refused.
#[derive(Clone, Copy, Debug, PartialEq, Eq)]
pub enum ScramFault {
    /// The message leaves its grammar. `at` is the first byte where it does, counted from 0; it is the message's
    /// length where the message ends too early.
    Malformed { at: u64 },
    /// The flag `p`: channel binding is asked for.
    Plus,
    /// An authorization identity is asked for.
    Authzid,
    /// Name or password is empty or not printable ASCII.
    BadName,
    /// The nonce isn't the one that it must be.
    BadNonce,
    /// The iteration count is outside 4,096 to 1,000,000. A count above 4,294,967,295 is told as that.
    Iterations { count: u32 },
    /// The client's proof isn't the right one.
    BadProof,
    /// The server's verifier isn't the right one.
    BadVerifier,
    /// Memory ran out.
    NoMemory,
}

impl fmt::Display for ScramFault {
    fn fmt<W: fmt::Write>(&self, f: &mut fmt::Formatter<W>) -> fmt::Result {
        match self {
            ScramFault::Malformed { at } => {
                write!(f, "the message leaves its grammar at byte {at}")
            }
            ScramFault::Iterations { count } => {
                write!(f, "{count} iterations are outside 4,096 to 1,000,000")
            }
            ScramFault::Plus => f.write_str("channel binding is asked for"),
            ScramFault::Authzid => f.write_str("an authorization identity is asked for"),
            ScramFault::BadName => f.write_str("name or password is empty or not printable ASCII"),
            ScramFault::BadNonce => f.write_str("the nonce is not the one that it must be"),
            ScramFault::BadProof => f.write_str("the proof is wrong"),
            ScramFault::BadVerifier => f.write_str("the verifier is wrong"),
            ScramFault::NoMemory => f.write_str("out of memory"),
        }
    }
}

impl Error for ScramFault {}

impl From<NoMemory> for ScramFault {
    ghost use Rattle.std.specs.Prelude.{◌≡◌};
    ghost use Rattle.auth_scram.specs.declared.fault.ScramFault.TheVariants.{NoMemory};

    ghost from_gives = { λ _ fault. fault ≡ NoMemory };

    fn from(_e: NoMemory) -> ScramFault {
        ScramFault::NoMemory
    }
}

/// The fault of a message that leaves its grammar where the rest begins.
pub(crate) fn malformed(bytes: &[u8], rest: &[u8]) -> ScramFault
    ensures { result ≡ malformed bytes.now rest.now }
{
    let at = bytes.len().saturating_sub(rest.len());
    ScramFault::Malformed { at: at as u64 }
}
