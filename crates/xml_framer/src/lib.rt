//! The stream parser: from the bytes of a stream, in whatever pieces, to headers, elements and footers, or the first
//! fault with its place (RFC 6120, sections 4 and 11; XML 1.0; Namespaces in XML 1.0).
#![tactic(auto)]

mod elements_in_hand;
mod fault;
mod feeding;
mod framer;
mod headers_in_hand;
mod items;
mod laws;
mod limits;
mod many_bytes;
mod markup_in_hand;
mod states;
mod tag_bytes;
mod tags_in_hand;
mod texts_in_hand;

pub use fault::{Fault, FeedFault, Why};
pub use framer::Framer;
pub use items::{Item, Items};
pub use laws::{a_fault_stays, any_pieces, bytes_only_add};
pub use limits::{Limits, MOST_DEPTH};
