//! What the writers of payloads have in common.
ghost use Rattle.std.specs.Prelude.{◌≡◌, [], IfOk, OnErr, OnOk};
ghost use Rattle.std.specs.Fmt.{decimal};
ghost use Rattle.std.specs.Option.{option_copied, option_map};
ghost use Rattle.im_payload.specs.Bare.{bare};
ghost use Rattle.im_payload.specs.Moments.{IsStampOf};
ghost use Rattle.im_payload.specs.Writing.{flag_text, text_child, text_child_where, with_attributes};
ghost use Rattle.xml_trees.specs.Attributes.{attribute};
ghost use Rattle.xml_trees.specs.Tidied.{text_node};
ghost use Rattle.xml_trees.specs.Trees.{element, with_attribute, with_nodes};
ghost use Rattle.xml_trees.specs.Views.{elem_view};
ghost use Rattle.im_stamp.specs.Dates.{stamp_at};
ghost use Rattle.im_stanza.specs.Written.{attr_where, unless_empty};

use base_io::{NoMemory, Text};
use im_stamp::{LAST_MOMENT, stamp_text};
use std::alloc::Global;
use xml_trees::{Attr, Element, Tree};

/// Adds an attribute without a namespace behind the others. A refusal leaves the element as it was, as it does below.
pub fn push_value(
    alloc: Global,
    element: &mut Element,
    name: &str,
    value: &str,
) -> Result<(), NoMemory>
    ensures ok { OnOk result (elem_view element.new ≡ with_attribute (elem_view element.old) (attribute [] name.now value.now)) }
    ensures err { OnErr result (elem_view element.new ≡ elem_view element.old) }
{
    let attr = Attr::from_strs(alloc, "", name, value)?;
    element.push_attr(attr)?;
    Ok(())
}

// The same where there is a value.
fn push_where(
    alloc: Global,
    element: &mut Element,
    name: &str,
    value: Option<&str>,
) -> Result<(), NoMemory>
    ensures ok { OnOk result (elem_view element.new ≡ with_attributes (elem_view element.old) (attr_where [] name.now (option_copied value.entry))) }
    ensures err { OnErr result (elem_view element.new ≡ elem_view element.old) }
{
    match value {
        None => Ok(()),
        Some(value) => push_value(alloc, element, name, value),
    }
}

/// Adds an attribute where its value isn't empty.
pub fn push_unless_empty(
    alloc: Global,
    element: &mut Element,
    name: &str,
    value: &str,
) -> Result<(), NoMemory>
    ensures ok { OnOk result (elem_view element.new ≡ with_attributes (elem_view element.old) (attr_where [] name.now (unless_empty value.now))) }
    ensures err { OnErr result (elem_view element.new ≡ elem_view element.old) }
{
    let given = if value.is_empty() { None } else { Some(value) };
    push_where(alloc, element, name, given)
}

/// Adds a boolean attribute where it is true.
pub fn push_flag(
    alloc: Global,
    element: &mut Element,
    name: &str,
    value: bool,
) -> Result<(), NoMemory>
    ensures ok { OnOk result (elem_view element.new ≡ with_attributes (elem_view element.old) (attr_where [] name.now (flag_text value))) }
    ensures err { OnErr result (elem_view element.new ≡ elem_view element.old) }
{
    let given = if value { Some("true") } else { None };
    push_where(alloc, element, name, given)
}

/// Adds a number as an attribute.
pub fn push_number(
    alloc: Global,
    element: &mut Element,
    name: &str,
    number: u64,
) -> Result<(), NoMemory>
    ensures ok { OnOk result (elem_view element.new ≡ with_attribute (elem_view element.old) (attribute [] name.now (decimal number))) }
    ensures err { OnErr result (elem_view element.new ≡ elem_view element.old) }
{
    let digits = number.to_string(alloc)?;
    push_value(alloc, element, name, &digits)
}

/// The same where there is a number.
pub fn push_number_where(
    alloc: Global,
    element: &mut Element,
    name: &str,
    number: Option<u32>,
) -> Result<(), NoMemory>
    ensures ok { OnOk result (elem_view element.new ≡ with_attributes (elem_view element.old) (attr_where [] name.now (option_map decimal number))) }
    ensures err { OnErr result (elem_view element.new ≡ elem_view element.old) }
{
    match number {
        None => Ok(()),
        Some(number) => push_number(alloc, element, name, u64::from(number)),
    }
}

/// An element that contains a text, which is left out where it is empty.
pub fn text_element(alloc: Global, ns: &str, name: &str, text: Text) -> Result<Element, NoMemory>
    ensures { IfOk result (λ e. elem_view e ≡ element ns.now name.now [] (text_node text)) }
{
    let mut element = Element::from_strs(alloc, ns, name)?;
    if text.as_str().is_empty() {
        return Ok(element);
    }
    element.push_text(text)?;
    Ok(element)
}

/// Adds a child that contains a text behind what the element contains.
pub fn push_text_child(
    alloc: Global,
    element: &mut Element,
    ns: &str,
    name: &str,
    text: &str,
) -> Result<(), NoMemory>
    ensures ok { OnOk result (elem_view element.new ≡ with_nodes (elem_view element.old) (text_child ns.now name.now text.now)) }
    ensures err { OnErr result (elem_view element.new ≡ elem_view element.old) }
{
    let text = Text::from_str(alloc, text)?;
    let child = text_element(alloc, ns, name, text)?;
    element.push_child(child)?;
    Ok(())
}

/// The same where the text isn't empty.
pub fn push_text_child_where(
    alloc: Global,
    element: &mut Element,
    ns: &str,
    name: &str,
    text: &str,
) -> Result<(), NoMemory>
    ensures ok { OnOk result (elem_view element.new ≡ with_nodes (elem_view element.old) (text_child_where ns.now name.now text.now)) }
    ensures err { OnErr result (elem_view element.new ≡ elem_view element.old) }
{
    if text.is_empty() {
        return Ok(());
    }
    push_text_child(alloc, element, ns, name, text)
}

/// The element of this namespace and name, without attributes, that contains nothing.
pub fn bare_tree(alloc: Global, ns: &str, name: &str) -> Result<Tree, NoMemory>
    ensures { IfOk result (λ tree. tree ≡ bare ns.now name.now) }
{
    let element = Element::from_strs(alloc, ns, name)?;
    Tree::of(alloc, element)
}

/// The stamp of a moment in milliseconds since 1970. One past `LAST_MOMENT` is written as that.
pub fn moment_text(alloc: Global, ms: u64) -> Result<Text, NoMemory>
    ensures stamp { IfOk result (λ text. IsStampOf ms text) }
    ensures value { IfOk result (λ text. text ≡ stamp_at ms) }
{
    stamp_text(alloc, ms.min(LAST_MOMENT))
}
