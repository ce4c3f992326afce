//! XML elements as trees (XML 1.0, sections 2.1, 3 and 3.1; Namespaces in XML 1.0, section 6): elements with their
//! names resolved, and the trees among them, which have one form each.
#![tactic(auto)]

mod attributes;
mod building;
mod copying;
mod elements;
mod laws;
mod reading;
mod rule;
mod runs;
mod tidying;
mod trees;

pub use attributes::{Attr, Attrs, tidy_attrs};
pub use copying::copy_nodes;
pub use elements::{Element, Node, Nodes};
pub use laws::{first_attributes_are_kept, tidy_element_reads_the_same, tidy_element_stays};
pub use reading::{find_attr, find_child, next_element, only_text_in, text_in};
pub use trees::Tree;
