//! What a tag may hold.
/// What a tag may hold.
#[derive(Clone, Copy, Debug, PartialEq, Eq)]
pub struct TagLimits {
    /// The most attributes, namespace declarations counted.
    pub attributes: u32,
    /// The most bytes of a namespace name that is declared, its characters escaped as in a written value.
    pub namespace_bytes: u32,
}
