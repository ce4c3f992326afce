//! What the readers of payloads have in common.
//!
//! A payload's fields are judged by a list of checks in their order (`first_wrong`), since one field may be wrong in
//! two ways that stand apart.
ghost use Rattle.std.specs.Prelude.{◌≡◌, ◌^◌, None, Some, IfErr, IfOk};
ghost use Rattle.std.specs.Option.{option_copied};
ghost use Rattle.im_payload.specs.Moments.{moment_in};
ghost use Rattle.im_payload.specs.Shapes.{attr_or_empty, child_text, child_text_or_empty, flag, is_true, number_below, optional_number, required_number};
ghost use Rattle.xml_trees.specs.Views.{elem_view};

use crate::fault::{ExtFault, Field};
use base_io::{NoMemory, Text};
use im_stamp::read_stamp;
use std::alloc::Global;
use xml_trees::Element;

// Whether a text is one of the two spellings of true.
fn is_true(spelled: &str) -> bool
    ensures { result ≡ is_true spelled.now }
{
    spelled == "true" || spelled == "1"
}

/// The boolean that the value of an attribute is: true exactly for `true` and `1`, and so false where it is absent (XML
/// Schema Part 2, section 3.2.2.1).
pub fn flag(value: Option<&str>) -> bool
    ensures { result ≡ flag (option_copied value.entry) }
{
    match value {
        None => false,
        Some(spelled) => is_true(spelled),
    }
}

// The number that a text spells in decimal digits alone. `None` where it spells none below 2^32.
fn u32_spelled(text: &str) -> Option<u32>
    ensures { result ≡ number_below (2 ^ 32) text.now }
{
    if text.starts_with('+') {
        return None;
    }
    match text.parse::<u32>() {
        Ok(number) => Some(number),
        Err(_) => None,
    }
}

// The number that a text spells in decimal digits alone. `None` where it spells none below 2^64.
fn u64_spelled(text: &str) -> Option<u64>
    ensures { result ≡ number_below (2 ^ 64) text.now }
{
    if text.starts_with('+') {
        return None;
    }
    match text.parse::<u64>() {
        Ok(number) => Some(number),
        Err(_) => None,
    }
}

/// The number that a text spells in decimal digits, of which zeros may lead. `Bad` of the field where the text is absent
/// or spells no number below 2^32.
pub fn required_u32(text: Option<&str>, field: Field) -> Result<u32, ExtFault>
    ensures ok { IfOk result (λ n. required_number (2 ^ 32) (option_copied text.entry) ≡ Some n) }
    ensures err { IfErr result (λ fault. (fault ≡ ExtFault.Bad field) × (required_number (2 ^ 32) (option_copied text.entry) ≡ None)) }
{
    match text {
        None => Err(ExtFault::Bad(field)),
        Some(spelled) => u32_spelled(spelled).ok_or(ExtFault::Bad(field)),
    }
}

/// The number that a text spells in decimal digits, of which zeros may lead, and `None` where the text is absent. `Bad` of
/// the field where it is there and spells no number below 2^32.
pub fn optional_u32(text: Option<&str>, field: Field) -> Result<Option<u32>, ExtFault>
    ensures ok { IfOk result (λ n. optional_number (2 ^ 32) (option_copied text.entry) ≡ Some n) }
    ensures err { IfErr result (λ fault. (fault ≡ ExtFault.Bad field) × (optional_number (2 ^ 32) (option_copied text.entry) ≡ None)) }
{
    match text {
        None => Ok(None),
        Some(spelled) => match u32_spelled(spelled) {
            None => Err(ExtFault::Bad(field)),
            number => Ok(number),
        },
    }
}

/// The same below 2^64.
pub fn optional_u64(text: Option<&str>, field: Field) -> Result<Option<u64>, ExtFault>
    ensures ok { IfOk result (λ n. optional_number (2 ^ 64) (option_copied text.entry) ≡ Some n) }
    ensures err { IfErr result (λ fault. (fault ≡ ExtFault.Bad field) × (optional_number (2 ^ 64) (option_copied text.entry) ≡ None)) }
{
    match text {
        None => Ok(None),
        Some(spelled) => match u64_spelled(spelled) {
            None => Err(ExtFault::Bad(field)),
            number => Ok(number),
        },
    }
}

/// The value of an attribute without a namespace, empty where there is none.
pub fn attr_text(alloc: Global, element: &Element, name: &str) -> Result<Text, NoMemory>
    ensures { IfOk result (λ text. text ≡ attr_or_empty name.now (elem_view element.now)) }
{
    match element.attr("", name) {
        None => Ok(Text::new(alloc)),
        Some(value) => Text::from_str(alloc, value),
    }
}

/// The text directly in the first child of this namespace and name. `None` where there is no such child.
pub fn child_text(
    alloc: Global,
    element: &Element,
    ns: &str,
    name: &str,
) -> Result<Option<Text>, NoMemory>
    ensures { IfOk result (λ text. text ≡ child_text ns.now name.now (elem_view element.now)) }
{
    match element.child(ns, name) {
        None => Ok(None),
        Some(child) => Ok(Some(child.text(alloc)?)),
    }
}

/// The same, empty where there is no such child.
pub fn child_text_or_empty(
    alloc: Global,
    element: &Element,
    ns: &str,
    name: &str,
) -> Result<Text, NoMemory>
    ensures { IfOk result (λ text. text ≡ child_text_or_empty ns.now name.now (elem_view element.now)) }
{
    match child_text(alloc, element, ns, name)? {
        None => Ok(Text::new(alloc)),
        Some(text) => Ok(text),
    }
}

/// The moment that a text is the stamp of, in milliseconds since 1970. `None` where the text is absent or `read_stamp`
/// refuses it.
pub fn moment_in(text: Option<&str>) -> Option<u64>
    ensures { result ≡ moment_in (option_copied text.entry) }
{
    match text {
        None => None,
        Some(spelled) => read_stamp(spelled).ok(),
    }
}
