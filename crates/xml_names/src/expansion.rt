//! Expanded names of elements and attributes.
ghost use Rattle.std.specs.Prelude.{◌≡◌, ◌++◌, Some, map, IfOk};
ghost use Rattle.std.specs.List.{list_any};
ghost use Rattle.std.specs.Option.{is_some, option_map};
ghost use Rattle.xml_names.specs.Expansion;
ghost use Rattle.xml_names.specs.Expansion.{borrowed_name, plain_attribute};
ghost use Rattle.xml_names.specs.Names.{has_colon};
ghost use Rattle.xml_names.specs.Scopes.{scope_of};
ghost use Rattle.xml_tokens.specs.RawTags.{attribute_of};
ghost use Rattle.xml_tokens.specs.Tags.{names_of};

use crate::index::indexed_names;
use crate::names::split_name;
use crate::open_scopes::Scopes;
use crate::scopes::{Binding, bound_copy, bound_in};
use base_io::{NoMemory, Text};
use std::alloc::Global;
use xml_tokens::RawAttribute;

/// Up to so many declarations in one tag are looked through in turn.
const FEW: usize = 16;

/// An attribute with its expanded name (Namespaces in XML 1.0, section 2.1).
#[derive(Debug, Drop)]
pub struct ExpandedAttribute {
    /// The namespace name; empty where there is none.
    pub ns: Text,
    /// The local name.
    pub name: Text,
    /// The value.
    pub value: Text,
}

/// An expanded name, borrowed. The order is that of the local names first: of attributes in one tag with one local
/// name, each has a prefix of its own, so that their namespaces together are no longer than their declarations.
#[derive(Clone, Copy, PartialEq, Eq, PartialOrd, Ord)]
pub(crate) struct ExpandedName<'a> {
    pub(crate) local: &'a str,
    pub(crate) ns: &'a str,
}

// Whether an element whose name has this prefix has a namespace, be it the empty one. Without a prefix nothing is looked up.
#[tactic(auto, unfolding(crate::specs::Expansion::element_ns))]
pub(crate) fn has_element_ns(own: &[Binding], stack: &Scopes, prefix: &str) -> bool
    ensures { result ≡ is_some (Expansion.element_ns (own.now ++ scope_of stack.now) prefix.now) }
{
    if prefix.is_empty() {
        return true;
    }
    if prefix == "xmlns" {
        return false;
    }
    match bound_in(own, stack, prefix) {
        Some(_) => true,
        None => false,
    }
}

// The namespace of an element whose name has this prefix. The empty one takes no memory, nor does a copy of a declared one.
#[tactic(auto, unfolding(crate::specs::Expansion::element_ns))]
pub(crate) fn element_ns_copy(
    alloc: Global,
    own: &[Binding],
    stack: &Scopes,
    prefix: &str,
) -> Result<Option<Text>, NoMemory>
    ensures { IfOk result (λ o. o ≡ Expansion.element_ns (own.now ++ scope_of stack.now) prefix.now) }
{
    if prefix.is_empty() {
        return match bound_copy(alloc, own, stack, prefix)? {
            Some(ns) => Ok(Some(ns)),
            None => Ok(Some(Text::new(alloc))),
        };
    }
    if prefix == "xmlns" {
        return Ok(None);
    }
    bound_copy(alloc, own, stack, prefix)
}

// The namespace of an attribute whose name has this prefix.
#[tactic(auto, unfolding(crate::specs::Expansion::attribute_ns))]
pub(crate) fn attribute_ns<'a>(
    own: &'a [Binding],
    stack: &'a Scopes,
    prefix: &str,
) -> Option<&'a str>
    ensures { option_map (λ s. s.now) result ≡ Expansion.attribute_ns (own.now ++ scope_of stack.now) prefix.now }
{
    if prefix.is_empty() {
        return Some("");
    }
    bound_in(own, stack, prefix)
}

// The same as a text. The empty one takes no memory, nor does a copy of a declared one.
#[tactic(auto, unfolding(crate::specs::Expansion::attribute_ns))]
fn attribute_ns_copy(
    alloc: Global,
    own: &[Binding],
    stack: &Scopes,
    prefix: &str,
) -> Result<Option<Text>, NoMemory>
    ensures { IfOk result (λ o. o ≡ Expansion.attribute_ns (own.now ++ scope_of stack.now) prefix.now) }
{
    if prefix.is_empty() {
        return Ok(Some(Text::new(alloc)));
    }
    bound_copy(alloc, own, stack, prefix)
}

// The expanded name of an attribute.
#[tactic(auto, unfolding(crate::specs::Expansion::expanded_name))]
pub(crate) fn expanded_name<'a>(
    own: &'a [Binding],
    stack: &'a Scopes,
    name: &'a str,
) -> Option<ExpandedName<'a>>
    ensures { option_map borrowed_name result ≡ Expansion.expanded_name (own.now ++ scope_of stack.now) name.now }
{
    let (prefix, local) = split_name(name);
    let ns = attribute_ns(own, stack, prefix)?;
    Some(ExpandedName { local, ns })
}

// The expanded names of attributes, in order, if each has one.
pub(crate) fn expanded_names<'a>(
    alloc: Global,
    own: &'a [Binding],
    stack: &'a Scopes,
    others: &[RawAttribute<'a>],
) -> Result<Option<Vec<ExpandedName<'a>>>, NoMemory>
    ensures { IfOk result (λ o. option_map (λ v. map borrowed_name v.items) o
        ≡ Expansion.expanded_names (own.now ++ scope_of stack.now) (names_of (map attribute_of others.now))) }
{
    if own.len() > FEW {
        return indexed_names(alloc, own, stack, others);
    }
    let mut names = Vec::with_capacity(alloc, others.len())?;
    for attribute in others {
        match expanded_name(own, stack, attribute.name) {
            Some(name) => names.push(name)?,
            None => return Ok(None),
        }
    }
    Ok(Some(names))
}

// An attribute with its expanded name, if it has one.
#[tactic(auto, unfolding(crate::specs::Expansion::expanded_name))]
fn expanded_attribute(
    alloc: Global,
    own: &[Binding],
    stack: &Scopes,
    attribute: RawAttribute<'_>,
) -> Result<Option<ExpandedAttribute>, NoMemory>
    ensures { IfOk result (λ o. o
        ≡ Expansion.expanded_attribute (own.now ++ scope_of stack.now) (attribute_of attribute.entry)) }
{
    let RawAttribute { name, value } = attribute;
    let (prefix, local) = split_name(name);
    match attribute_ns_copy(alloc, own, stack, prefix)? {
        Some(ns) => Ok(Some(ExpandedAttribute {
            ns,
            name: Text::from_str(alloc, local)?,
            value,
        })),
        None => Ok(None),
    }
}

// Attributes with their expanded names, in order, if each has one. Each prefix is looked up.
fn bound_attributes(
    alloc: Global,
    own: &[Binding],
    stack: &Scopes,
    others: Vec<RawAttribute<'_>>,
) -> Result<Option<Vec<ExpandedAttribute>>, NoMemory>
    ensures { IfOk result (λ o. option_map (λ v. v.items) o
        ≡ Expansion.expanded_attributes (own.now ++ scope_of stack.now) (map attribute_of others.entry.items)) }
{
    let mut attributes = Vec::with_capacity(alloc, others.len())?;
    for attribute in others {
        match expanded_attribute(alloc, own, stack, attribute)? {
            Some(expanded) => attributes.push(expanded)?,
            None => return Ok(None),
        }
    }
    Ok(Some(attributes))
}

// Attributes without a prefix, with their expanded names: no name is split, and none looked up.
fn plain_attributes(
    alloc: Global,
    others: Vec<RawAttribute<'_>>,
) -> Result<Vec<ExpandedAttribute>, NoMemory>
    ensures { IfOk result (λ v. v.items ≡ map (λ a. plain_attribute (attribute_of a)) others.entry.items) }
{
    let mut attributes = Vec::with_capacity(alloc, others.len())?;
    for attribute in others {
        let RawAttribute { name, value } = attribute;
        let name = Text::from_str(alloc, name)?;
        let ns = Text::new(alloc);
        attributes.push_reserved(ExpandedAttribute { ns, name, value });
    }
    Ok(attributes)
}

// Attributes with their expanded names, in order, if each has one. It is told whether some has a prefix.
pub(crate) fn expanded_attributes(
    alloc: Global,
    own: &[Binding],
    stack: &Scopes,
    others: Vec<RawAttribute<'_>>,
    prefixed: bool,
) -> Result<Option<Vec<ExpandedAttribute>>, NoMemory>
    requires { prefixed ≡ list_any (λ a. has_colon a.name.now) others.items }
    ensures { IfOk result (λ o. option_map (λ v. v.items) o
        ≡ Expansion.expanded_attributes (own.now ++ scope_of stack.now) (map attribute_of others.entry.items)) }
{
    if prefixed {
        return bound_attributes(alloc, own, stack, others);
    }
    Ok(Some(plain_attributes(alloc, others)?))
}
