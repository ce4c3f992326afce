//! The tokens of an XMPP stream, each read off its whole bytes: characters, references, values, declarations and the
//! inside of a tag (XML 1.0, fifth edition; RFC 6120, sections 4 and 11; RFC 3629).
#![tactic(auto)]

mod attributes;
mod characters;
mod declarations;
mod distinct;
mod fault;
mod fronts;
mod laws;
mod raw_tags;
mod references;
mod spelling;
mod tags;
mod utf8;
mod values;
mod written;

pub use attributes::is_quote;
pub use characters::{
    are_characters, ends_forbidden, is_control, is_name, is_name_byte, is_name_start, is_white,
};
pub use declarations::{Declaration, read_declaration};
pub use fault::{TagFault, TagWhy};
pub use laws::{
    characters_are_those_of_xml, good_declarations_are_well_formed, other_encodings_are_told,
    references_go_on, runs_are_text, tags_are_read, text_runs, texts_are_read_back,
    unknown_names_are_restricted, values_are_read_back, values_are_spelled, what_is_read_is_a_tag,
};
pub use raw_tags::{RawAttribute, RawTag, StartTag};
pub use references::{Reference, reference_goes_on, referred};
pub use spelling::{
    append_text, append_text_reserved, append_value, append_value_reserved, spelled_text_len,
    spelled_value_len,
};
pub use tags::{is_end, quote_behind, read_end_tag, read_tag};
pub use utf8::{NotUtf8, PartialCharacter, text_front};
pub use values::{has_unknown, read_value};
