//! Elements, headers and footers of a stream as they are written (RFC 6120, section 4; XML 1.0, sections 2.4 and 3.1;
//! Namespaces in XML 1.0, sections 3 to 6): one spelling each, into memory that is reserved first.
#![tactic(auto)]

mod laws;
mod parts;
mod tag_lengths;
mod tag_writing;
mod weights;
mod writing;

pub use laws::elements_are_written_in_parts;
pub use parts::{write_end, write_nodes, write_start};
pub use writing::{spelled_len, write, write_footer, write_growing, write_header};
