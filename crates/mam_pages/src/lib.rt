//! Pages of an archive (XEP-0313, XEP-0059): which of its entries answer a query, how many there are, and what an archive
//! reports at a page's end.
#![tactic(auto)]

mod archive_look;
mod cut;
mod fin;
mod looks;
mod paging;
mod passing;
mod query;
mod span;
mod stretch;
mod tally;
mod walks;
mod whole;
mod window;

pub use archive_look::ArchiveLook;
pub use cut::{PageCut, PageFault};
pub use fin::Fin;
pub use looks::Look;
pub use paging::page;
pub use query::{PagePosition, PageQuery};
pub use span::MOST_RESULTS;
