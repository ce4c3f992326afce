//! The client's flag of channel binding (RFC 5802, section 7).
//!
//! The flag is an enum (`BindingFlag`), and not a byte.
/// Whether the client supports channel binding (RFC 5802, section 7, `gs2-cbind-flag`).
#[derive(Clone, Copy, Debug, PartialEq, Eq)]
pub enum BindingFlag {
    /// `n`: it doesn't.
    Unsupported,
    /// `y`: it does, and takes the server not to.
    NotOffered,
}
