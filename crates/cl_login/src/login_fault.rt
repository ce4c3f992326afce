//! Why a login is given up.
use base_io::Text;
use std::error::Error;
use std::fmt;

/// Why a client gives a login up.
#[derive(Debug, Drop)]
pub enum LoginFault {
    /// The server refused the login, with this condition (RFC 6120, section 6.5).
    Sasl(Text),
    /// The server's verifier isn't the right one: it doesn't know the password's keys (RFC 5802, section 3).
    BadVerifier,
    /// Name or password is no name or password of this profile, or another check of SCRAM-SHA-256 failed.
    Scram,
    /// SCRAM-SHA-256 isn't offered.
    NoFeature,
    /// An item that isn't the one that is awaited.
    Unexpected,
}

impl fmt::Display for LoginFault {
    fn fmt<W: fmt::Write>(&self, f: &mut fmt::Formatter<W>) -> fmt::Result {
        match self {
            LoginFault::Sasl(condition) => write!(f, "the login is refused: {condition}"),
            LoginFault::BadVerifier => f.write_str("the server's verifier is wrong"),
            LoginFault::Scram => f.write_str("the exchange of SCRAM-SHA-256 failed"),
            LoginFault::NoFeature => f.write_str("SCRAM-SHA-256 is not offered"),
            LoginFault::Unexpected => f.write_str("another item is awaited"),
        }
    }
}

impl Error for LoginFault {}
