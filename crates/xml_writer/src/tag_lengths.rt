//! How long tags are as they are written. A length past 2^64 - 1 is answered as that.
ghost use Rattle.std.specs.Prelude.{◌≡◌, ◌+◌, ◌-◌, ◌<◌, ◌≤◌, ◌^◌, length, min};
ghost use Rattle.xml_writer.specs.Canon.{assignment, assignments, declared_default, foreign, number_text, opened};
ghost use Rattle.xml_writer.specs.Canon.{spelled_attribute, spelled_attributes, spelled_name, written_end_tag};
ghost use Rattle.xml_tokens.specs.Spelling.{spelled_value};

use crate::tag_writing::{STREAMS_NAMESPACE, XML_NAMESPACE, declares_default, number_after};
use itoa::Buffer;
use xml_tokens::spelled_value_len;
use xml_trees::Attr;

/// The length of an attribute whose name has so many bytes.
pub(crate) fn assignment_len(name: usize, value: &[u8]) -> usize
    ensures { result ≡ min (name + length (spelled_value value.now) + 4) (2 ^ 64 - 1) }
{
    name.saturating_add(4)
        .saturating_add(spelled_value_len(value))
}

// The length of an attribute with the prefix `a` and digits, and of its declaration.
#[tactic(auto, unfolding(crate::specs::Canon::assignment))]
fn foreign_len(digits: &[u8], attr: &Attr) -> usize
    ensures { result ≡ min (length (assignments (foreign digits.now attr.now))) (2 ^ 64 - 1) }
{
    let name = attr.name.as_str().len();
    let declaration = assignment_len(digits.len().saturating_add(7), attr.ns.as_str().as_bytes());
    let prefixed = assignment_len(
        name.saturating_add(digits.len()).saturating_add(2),
        attr.value.as_str().as_bytes(),
    );
    declaration.saturating_add(prefixed)
}

// The same with the digits of a number.
#[tactic(auto, using(crate::proofs::WrittenTags::decimal_is))]
fn numbered_len(number: usize, attr: &Attr) -> usize
    ensures { result ≡ min (length (assignments (foreign (number_text number) attr.now))) (2 ^ 64 - 1) }
{
    let mut buffer = Buffer::new();
    foreign_len(buffer.format(number).as_bytes(), attr)
}

// The length of an attribute, with its declaration where it has one.
#[tactic(auto, unfolding(crate::specs::Canon::spelled_attribute, crate::specs::Canon::assignment))]
fn attribute_len(number: usize, attr: &Attr) -> usize
    ensures { result ≡ min (length (assignments (spelled_attribute number attr.now))) (2 ^ 64 - 1) }
{
    let name = attr.name.as_str().len();
    let value = attr.value.as_str().as_bytes();
    if attr.ns.as_str().is_empty() {
        return assignment_len(name, value);
    }
    if attr.ns.as_str() == XML_NAMESPACE {
        return assignment_len(name.saturating_add(4), value);
    }
    numbered_len(number, attr)
}

// The length of the attributes of a tag.
fn attributes_len(attrs: &[Attr]) -> usize
    ensures { result ≡ min (length (assignments (spelled_attributes 0 attrs.now))) (2 ^ 64 - 1) }
{
    let mut number = 0usize;
    let mut len = 0usize;
    for attr in attrs {
        len = len.saturating_add(attribute_len(number, attr));
        number = number_after(number, attr);
    }
    len
}

#[tactic(auto, unfolding(crate::specs::Canon::declared_default, crate::specs::Canon::assignment))]
fn default_len(default: &str, ns: &str) -> usize
    ensures { result ≡ min (length (assignments (declared_default default.now ns.now))) (2 ^ 64 - 1) }
{
    if declares_default(default, ns) {
        assignment_len(5, ns.as_bytes())
    } else {
        0
    }
}

#[tactic(auto, unfolding(crate::specs::Canon::spelled_name))]
fn name_len(ns: &str, name: &str) -> usize
    ensures { result ≡ min (length (spelled_name ns.now name.now)) (2 ^ 64 - 1) }
{
    if ns == STREAMS_NAMESPACE {
        name.len().saturating_add(7)
    } else if ns == XML_NAMESPACE {
        name.len().saturating_add(4)
    } else {
        name.len()
    }
}

/// The length of a start tag but for its end.
pub(crate) fn start_len(default: &str, ns: &str, name: &str, attrs: &[Attr]) -> usize
    ensures { result ≡ min (length (opened default.now ns.now name.now attrs.now)) (2 ^ 64 - 1) }
{
    name_len(ns, name)
        .saturating_add(1)
        .saturating_add(default_len(default, ns))
        .saturating_add(attributes_len(attrs))
}

/// The length of an end tag.
pub(crate) fn end_len(ns: &str, name: &str) -> usize
    ensures { result ≡ min (length (written_end_tag ns.now name.now)) (2 ^ 64 - 1) }
{
    name_len(ns, name).saturating_add(3)
}
