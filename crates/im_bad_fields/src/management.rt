//! Bad fields of stream management's elements (XEP-0198).
ghost use Rattle.std.specs.Prelude.{◌≡◌};
ghost use Rattle.im_bad_fields.specs.BadFields.{has_bad_management_field, is_bad};
ghost use Rattle.im_extensions.specs.Readings.{enabled_read, failed_read, resumption_read};
ghost use Rattle.im_extensions.specs.StreamManagement.{ack_read};
ghost use Rattle.xml_trees.specs.Views.{elem_view};

use im_extensions::Ack;
use im_payload::{ExtFault, Field, MANAGEMENT, optional_u32, required_u32};
use im_stanza::{STANZA_ERRORS, condition_in};
use xml_trees::Element;

/// Whether the element is one of stream management's (XEP-0198) and its reader, as `Ack::read_element`, refuses it for
/// a bad field: an `enabled` with a `max` that is no number below 2^32, an `a` without such a number as its `h`, a
/// `resume` or `resumed` without a `previd` or such an `h`, a `failed` that names no condition. It takes no memory.
pub fn has_bad_management_field(element: &Element) -> bool
    ensures { result ≡ has_bad_management_field (elem_view element.now) }
{
    has_bad_max(element)
        || has_bad_count(element)
        || has_bad_resumption(element, "resume")
        || has_bad_resumption(element, "resumed")
        || has_bad_condition(element)
}

// Whether it is an `enabled` with a bad `max`.
fn has_bad_max(element: &Element) -> bool
    ensures { result ≡ is_bad (enabled_read (elem_view element.now)) }
{
    if !element.is(MANAGEMENT, "enabled") {
        return false;
    }
    match optional_u32(element.attr("", "max"), Field::Max) {
        Ok(_) => false,
        Err(_) => true,
    }
}

// Whether it is an `a` with a bad count.
fn has_bad_count(element: &Element) -> bool
    ensures { result ≡ is_bad (ack_read (elem_view element.now)) }
{
    match Ack::read_element(element) {
        Err(ExtFault::Bad(_)) => true,
        _ => false,
    }
}

// Whether it is a `resume` or a `resumed`, whichever the name says, without an id or with a bad count.
fn has_bad_resumption(element: &Element, name: &str) -> bool
    ensures { result ≡ is_bad (resumption_read name.now (elem_view element.now)) }
{
    if !element.is(MANAGEMENT, name) {
        return false;
    }
    let Some(_) = element.attr("", "previd") else {
        return true;
    };
    match required_u32(element.attr("", "h"), Field::H) {
        Ok(_) => false,
        Err(_) => true,
    }
}

// Whether it is a `failed` that names no condition.
fn has_bad_condition(element: &Element) -> bool
    ensures { result ≡ is_bad (failed_read (elem_view element.now)) }
{
    if !element.is(MANAGEMENT, "failed") {
        return false;
    }
    match condition_in(&element.children, STANZA_ERRORS) {
        Some(_) => false,
        None => true,
    }
}
