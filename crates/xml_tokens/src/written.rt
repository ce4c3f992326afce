//! What is written: a text between tags, or a value in single quotes.

/// What is written.
#[derive(Clone, Copy)]
pub(crate) enum Written {
    /// A text between tags.
    Text,
    /// A value in single quotes.
    Value,
}
