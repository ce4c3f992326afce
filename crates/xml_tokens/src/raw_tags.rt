//! Tags as they are spelled, before their names are expanded (XML 1.0, section 3.1).
use base_io::Text;

/// An attribute of a tag: its name as it is spelled, with its prefix, borrowed from the tag's bytes, and its value.
#[derive(Debug, Drop)]
pub struct RawAttribute<'a> {
    /// The spelled name.
    pub name: &'a str,
    /// The value, with its references replaced.
    pub value: Text,
}

/// A start tag as it is spelled, before its names are expanded. Its names are borrowed from its bytes.
#[derive(Debug, Drop)]
pub struct StartTag<'a> {
    /// The spelled name, with its prefix.
    pub name: &'a str,
    /// The attributes in order, namespace declarations among them. No two have one spelled name.
    pub attributes: Vec<RawAttribute<'a>>,
    /// Whether it is the tag of an empty element, which ends in `/>`.
    pub empty: bool,
}

/// A tag read off its bytes.
#[derive(Debug, Drop)]
pub enum RawTag<'a> {
    /// A start tag, or the tag of an empty element.
    Start(StartTag<'a>),
    /// An end tag, with its spelled name.
    End(&'a str),
}
