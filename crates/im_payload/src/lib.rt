//! What the payloads of extensions have in common: the namespaces, what is wrong with an element that is not read, and the
//! parts of readers and writers.
#![tactic(auto)]

mod fault;
mod names;
mod readers;
mod writers;

pub use fault::{ExtFault, Field};
pub use names::{
    ARCHIVE, BINDING, CARBONS, DATA_FORMS, DELAYS, DISCO_INFO, DISCO_ITEMS, FORWARDING, MANAGEMENT,
    PINGS, RESULT_SETS, ROSTER, SASL, SESSIONS, STANZA_IDS,
};
pub use readers::{
    attr_text, child_text, child_text_or_empty, flag, moment_in, optional_u32, optional_u64,
    required_u32,
};
pub use writers::{
    bare_tree, moment_text, push_flag, push_number, push_number_where, push_text_child,
    push_text_child_where, push_unless_empty, push_value, text_element,
};
