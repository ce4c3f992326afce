//! Namespaces in the tags of an XMPP stream: scopes, expanded names, and a whole tag as one value (Namespaces in XML
//! 1.0, third edition; RFC 6120, sections 4.8 and 11).
#![tactic(auto)]

mod declarations;
mod ends;
mod expansion;
mod fault;
mod headers;
mod index;
mod laws;
mod limits;
mod names;
mod open_scopes;
mod pairs;
mod scopes;
mod starts;

pub use ends::read_end;
pub use expansion::ExpandedAttribute;
pub use fault::{StartFault, StartWhy};
pub use headers::{Header, HeaderTag, STREAMS_NAMESPACE, header_of, opens_stream};
pub use laws::{
    declarations_are_tested, end_tags_are_read, names_are_split, start_refusals_are_due,
    starts_are_read,
};
pub use limits::TagLimits;
pub use names::is_spelled;
pub use open_scopes::Scopes;
pub use scopes::Binding;
pub use starts::{Tag, read_start};
