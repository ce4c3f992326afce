//! Whether the attributes of one tag have names of their own.
ghost use Rattle.std.specs.Prelude.{◌≡◌, map, IfOk};
ghost use Rattle.std.specs.List.{list_any};
ghost use Rattle.std.specs.Str.{bytes_eq};
ghost use Rattle.xml_tokens.specs.RawTags.{attribute_of};
ghost use Rattle.xml_tokens.specs.Tags;
ghost use Rattle.xml_tokens.specs.Tags.{names_of};

use crate::raw_tags::RawAttribute;
use base_io::NoMemory;
use base_lemmas::are_distinct as are_all_distinct;
use std::alloc::Global;

/// The names of up to so many attributes are compared in pairs, which takes no memory. The names of more are put in
/// order, so that many names cost little more than their bytes.
const FEW: usize = 8;

// Whether an attribute has this spelled name.
fn has_name(attributes: &[RawAttribute], name: &str) -> bool
    ensures { result ≡ list_any (bytes_eq name.now) (names_of (map attribute_of attributes.now)) }
{
    for attribute in attributes {
        if name == attribute.name {
            return true;
        }
    }
    false
}

// Whether no two of a few attributes have one spelled name.
fn few_are_distinct(attributes: &[RawAttribute]) -> bool
    ensures { result ≡ Tags.are_distinct (names_of (map attribute_of attributes.now)) }
{
    for (i, attribute) in attributes.iter().enumerate() {
        if has_name(&attributes[i + 1..], attribute.name) {
            return false;
        }
    }
    true
}

// The spelled names, borrowed.
fn names<'a>(alloc: Global, attributes: &[RawAttribute<'a>]) -> Result<Vec<&'a str>, NoMemory>
    ensures { IfOk result (λ v. map (λ n. n.now) v.items ≡ names_of (map attribute_of attributes.now)) }
{
    let mut names = Vec::with_capacity(alloc, attributes.len())?;
    for attribute in attributes {
        names.push(attribute.name)?;
    }
    Ok(names)
}

// Whether no two attributes have one spelled name.
pub(crate) fn are_distinct(alloc: Global, attributes: &[RawAttribute]) -> Result<bool, NoMemory>
    ensures { IfOk result (λ b. b ≡ Tags.are_distinct (names_of (map attribute_of attributes.now))) }
{
    if attributes.len() <= FEW {
        return Ok(few_are_distinct(attributes));
    }
    let mut names = names(alloc, attributes)?;
    Ok(are_all_distinct(names.as_mut_slice()))
}
