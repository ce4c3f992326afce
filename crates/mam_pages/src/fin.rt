//! The end of a page (XEP-0313, section 4.2; XEP-0059, section 2.1).
//!
//! `Fin` stands in `mam_pages`; `im_mam` reads and writes it.
use base_io::Text;

/// The end of a page of an archive, as the server reports it (XEP-0313, sections 4.2 and 4.3; XEP-0059, section 2.1):
/// whether nothing remains in the direction of paging, the ids of the page's first and last entry, which an empty page
/// lacks, the place of the first among all entries that match, from 0, and how many match.
#[derive(Drop)]
pub struct Fin {
    pub complete: bool,
    pub first: Option<Text>,
    pub first_index: u64,
    pub last: Option<Text>,
    pub count: u64,
}
