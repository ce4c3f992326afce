//! Namespace declarations among the attributes of a tag.
ghost use Rattle.std.specs.Prelude.{◌≡◌, [], ◌∷◌, ◌++◌, map, IfOk, OnOk};
ghost use Rattle.std.specs.List.{list_all, list_any};
ghost use Rattle.std.specs.Option.{option_map, is_some};
ghost use Rattle.xml_names.specs.Declarations;
ghost use Rattle.xml_names.specs.Declarations.{bindings_of, others_of};
ghost use Rattle.xml_tokens.specs.RawTags.{attribute_of};

use crate::names::split_name;
use crate::scopes::{Binding, XML_NAMESPACE};
use base_io::{NoMemory, Text};
use std::alloc::Global;
use xml_tokens::RawAttribute;

/// The namespace that the prefix `xmlns` is bound to (Namespaces in XML 1.0, section 3).
const XMLNS_NAMESPACE: &str = "http://www.w3.org/2000/xmlns/";

/// The namespace declarations of a tag, and its other attributes, each in order.
#[derive(Drop)]
pub(crate) struct PartedAttributes<'a> {
    pub(crate) bindings: Vec<Binding>,
    pub(crate) others: Vec<RawAttribute<'a>>,
}

// The prefix that an attribute with this name declares, if it is a declaration. Most names differ in their first byte.
#[tactic(auto, unfolding(crate::specs::Declarations::declared_prefix))]
fn declared_prefix(name: &str) -> Option<&str>
    ensures { option_map (λ s. s.now) result ≡ Declarations.declared_prefix name.now }
{
    if !name.starts_with('x') {
        return None;
    }
    if name == "xmlns" {
        return Some("");
    }
    let (prefix, local) = split_name(name);
    if prefix == "xmlns" { Some(local) } else { None }
}

// Whether some attribute is a declaration.
fn has_declaration(attributes: &[RawAttribute]) -> bool
    ensures { result ≡ list_any (λ a. is_some (Declarations.declared_prefix a.name.now)) attributes.now }
{
    for attribute in attributes {
        if declared_prefix(attribute.name).is_some() {
            return true;
        }
    }
    false
}

// Adds what a declaration binds. The namespace is shared from here on.
fn declare(
    alloc: Global,
    bindings: &mut Vec<Binding>,
    prefix: &str,
    ns: Text,
) -> Result<(), NoMemory>
    ensures { OnOk result (bindings.new.items ≡ bindings.old.items ++ record { prefix = prefix.now; ns = ns } ∷ []) }
{
    let prefix = Text::from_str(alloc, prefix)?;
    let ns = ns.shared()?;
    bindings.push(Binding { prefix, ns })?;
    Ok(())
}

// Declarations and other attributes apart, where there is a declaration: the others are one fewer at least.
fn part_declared<'a>(
    alloc: Global,
    attributes: Vec<RawAttribute<'a>>,
) -> Result<PartedAttributes<'a>, NoMemory>
    ensures bindings { IfOk result (λ p. p.bindings.items ≡ bindings_of (map attribute_of attributes.entry.items)) }
    ensures others { IfOk result (λ p. map attribute_of p.others.items ≡ others_of (map attribute_of attributes.entry.items)) }
{
    let mut bindings = Vec::new(alloc);
    let mut others = Vec::with_capacity(alloc, attributes.len().saturating_sub(1))?;
    for attribute in attributes {
        if let Some(prefix) = declared_prefix(attribute.name) {
            declare(alloc, &mut bindings, prefix, attribute.value)?;
            continue;
        }
        others.push(attribute)?;
    }
    Ok(PartedAttributes { bindings, others })
}

// Declarations and other attributes apart. Where there is no declaration, the attributes are handed on as they are.
pub(crate) fn part<'a>(
    alloc: Global,
    attributes: Vec<RawAttribute<'a>>,
) -> Result<PartedAttributes<'a>, NoMemory>
    ensures bindings { IfOk result (λ p. p.bindings.items ≡ bindings_of (map attribute_of attributes.entry.items)) }
    ensures others { IfOk result (λ p. map attribute_of p.others.items ≡ others_of (map attribute_of attributes.entry.items)) }
{
    if has_declaration(attributes.as_slice()) {
        return part_declared(alloc, attributes);
    }
    Ok(PartedAttributes {
        bindings: Vec::new(alloc),
        others: attributes,
    })
}

// Whether a declaration may be made.
#[tactic(auto, unfolding(crate::specs::Declarations::may_declare))]
fn may_declare(binding: &Binding) -> bool
    ensures { result ≡ Declarations.may_declare binding.now }
{
    let prefix = binding.prefix.as_str();
    let ns = binding.ns.as_str();
    if prefix == "xml" {
        return ns == XML_NAMESPACE;
    }
    prefix != "xmlns"
        && ns != XML_NAMESPACE
        && ns != XMLNS_NAMESPACE
        && (prefix.is_empty() || !ns.is_empty())
}

// Whether each declaration may be made.
pub(crate) fn all_may_declare(bindings: &[Binding]) -> bool
    ensures { result ≡ list_all Declarations.may_declare bindings.now }
{
    for binding in bindings {
        if !may_declare(binding) {
            return false;
        }
    }
    true
}
