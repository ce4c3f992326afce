//! What a page is asked for (XEP-0313, sections 4.1 and 4.3; XEP-0059).
use base_io::Text;

/// Where a page lies among the entries that match (XEP-0059 sections 2.1 to 2.5). An id is an archive id.
#[derive(Drop)]
pub enum PagePosition {
    /// The first entries.
    First,
    /// The first entries behind the one with this id.
    After(Text),
    /// The last entries before the one with this id.
    Before(Text),
    /// The last entries.
    Last,
}

/// What a page is asked for (XEP-0313 sections 4.1 and 4.3, XEP-0059).
#[derive(Drop)]
pub struct PageQuery {
    /// Whose messages: an address without a resource for all those exchanged with an account, one with a resource
    /// for those of that session alone. Without it, everybody's.
    pub peer: Option<Text>,
    /// The earliest moment, which belongs to it, in milliseconds since 1970.
    pub start: Option<u64>,
    /// The latest moment, which belongs to it, in milliseconds since 1970.
    pub end: Option<u64>,
    pub position: PagePosition,
    /// The most entries that the page is to have. At most 100 are given, and 100 where nothing is said.
    pub max: Option<u32>,
}
