//! In whose archives a message goes.

/// In whose archives a message goes (XEP-0313, section 5), by the places of the accounts.
#[derive(Clone, Copy, Debug, PartialEq, Eq)]
pub enum Archiving {
    /// In none.
    Nowhere,
    /// In that of an account which wrote to itself.
    Once(u32),
    /// In the sender's, and then in the recipient's.
    Both(u32, u32),
}
