use base_io::ListOf;
use xml_names::Header;
use xml_trees::Tree;

/// What a stream says, one thing after another (RFC 6120, section 4).
#[derive(Drop)]
pub enum Item {
    /// A header, with the place of its tag's first byte in the stream.
    Header { at: u64, header: Header },
    /// A top-level element.
    Element(Tree),
    /// The end of the stream.
    Footer,
}

/// Items, in order.
pub type Items = ListOf<Item>;
