//! Why nothing was opened.

/// Why a door was not opened, or no connection was handed out.
#[derive(Clone, Copy, Debug, PartialEq, Eq)]
pub enum OpenFault {
    /// A call outside failed.
    Failed,
    /// Memory ran out.
    NoMemory,
}
