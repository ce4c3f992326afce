//! The three stanzas, their errors and the errors of streams, read from trees and written as trees (RFC 6120, sections
//! 4.9 and 8; RFC 6121, sections 4.7 and 5.2).
#![tactic(auto)]

mod answering;
mod conditions;
mod elements;
mod errors;
mod fault;
mod kinds;
mod laws;
mod moving;
mod names;
mod reading;
mod stanzas;
mod streams;
mod writing;

pub use answering::{bounce, iq_error, presence_bounce};
pub use conditions::{Condition, condition_in};
pub use elements::{StanzaAttrs, stanza_element};
pub use errors::{ErrorKind, StanzaError, error_element, stanza_error, stanza_error_in};
pub use fault::{StanzaErrorFault, StanzaFault};
pub use kinds::{IqKind, MessageKind, PresenceKind};
pub use laws::{
    errors_are_read_as_stated, stanzas_are_read_as_stated, written_errors_are_read_back,
    written_stanzas_are_read_back,
};
pub use names::{CLIENT, STANZA_ERRORS, STREAM_ERRORS, STREAMS, XML};
pub use reading::{read_stanza, read_stanza_element, stanza_of};
pub use stanzas::{Iq, Message, Presence, Stanza};
pub use streams::{stream_condition, stream_error};
pub use writing::{iq_tree, message_tree, presence_tree};
