//! The declarations of one tag, by prefix: where there are many, a look-up takes no longer for each.
ghost use Rattle.std.specs.Prelude.{◌≡◌, ◌++◌, ℕ, List, Some, map, IfOk, OnOk};
ghost use Rattle.std.specs.BTreeMap as tree;
ghost use Rattle.std.specs.Cmp.Lexicographic.{slice_cmp};
ghost use Rattle.std.specs.Map.{update};
ghost use Rattle.std.specs.Option.{option_map};
ghost use Rattle.std.specs.Ordering.{nat_cmp};
ghost use Rattle.std.specs.Str.{bytes_eq};
ghost use Rattle.xml_names.specs.Expansion;
ghost use Rattle.xml_names.specs.Expansion.{borrowed_name};
ghost use Rattle.xml_names.specs.Scopes as scope;
ghost use Rattle.xml_names.specs.Scopes.{bound, scope_of};
ghost use Rattle.xml_tokens.specs.RawTags.{attribute_of};
ghost use Rattle.xml_tokens.specs.Tags.{names_of};

use crate::expansion::ExpandedName;
use crate::names::split_name;
use crate::open_scopes::Scopes;
use crate::scopes::{Binding, XML_NAMESPACE, stack_name};
use base_io::NoMemory;
use std::alloc::Global;
use std::collections::BTreeMap;
use xml_tokens::RawAttribute;

/// The declarations of one tag, and the namespace of the first that each prefix has.
#[derive(Drop)]
pub(crate) struct Index<'a> {
    first: BTreeMap<&'a str, &'a str>,
    own: &'a [Binding],
}

// Puts a binding before those that are there.
fn put<'a>(
    index: &mut BTreeMap<&'a str, &'a str>,
    prefix: &'a str,
    ns: &'a str,
) -> Result<(), NoMemory>
    ensures { OnOk result ((q : List ℕ) →
        tree.get_by (λ k. slice_cmp nat_cmp q k.now) index.new
        ≡ update bytes_eq (λ p. tree.get_by (λ k. slice_cmp nat_cmp p k.now) index.old) prefix.now (Some ns.entry) q) }
{
    index.insert(prefix, ns)?;
    Ok(())
}

// The declarations by prefix, the first of each.
fn by_prefix<'a>(alloc: Global, own: &'a [Binding]) -> Result<Index<'a>, NoMemory>
    ensures first { IfOk result (λ m. (q : List ℕ) → option_map (λ s. s.now) (tree.get_by (λ k. slice_cmp nat_cmp q k.now) m.first) ≡ scope.first_bound m.own.now q) }
    ensures own { IfOk result (λ m. m.own.now ≡ own.now) }
{
    let mut first = BTreeMap::new(alloc);
    for i in (0..own.len()).rev() {
        put(&mut first, own[i].prefix.as_str(), own[i].ns.as_str())?;
    }
    Ok(Index { first, own })
}

// The namespace that a prefix stands for in a tag with these declarations, inside a stack of others.
#[tactic(auto, unfolding(crate::specs::Scopes::bound))]
fn bound_by<'a>(index: &Index<'a>, stack: &'a Scopes, prefix: &str) -> Option<&'a str>
    requires { (q : List ℕ) → option_map (λ s. s.now) (tree.get_by (λ k. slice_cmp nat_cmp q k.now) index.now.first) ≡ scope.first_bound index.now.own.now q }
    ensures { option_map (λ s. s.now) result ≡ bound (index.now.own.now ++ scope_of stack.now) prefix.now }
{
    if prefix == "xml" {
        return Some(XML_NAMESPACE);
    }
    match index.first.get(prefix) {
        Some(ns) => Some(*ns),
        None => stack_name(stack, prefix),
    }
}

// The expanded name of an attribute.
#[tactic(auto, unfolding(crate::specs::Expansion::expanded_name, crate::specs::Expansion::attribute_ns))]
fn expanded_by<'a>(index: &Index<'a>, stack: &'a Scopes, name: &'a str) -> Option<ExpandedName<'a>>
    requires { (q : List ℕ) → option_map (λ s. s.now) (tree.get_by (λ k. slice_cmp nat_cmp q k.now) index.now.first) ≡ scope.first_bound index.now.own.now q }
    ensures { option_map borrowed_name result ≡ Expansion.expanded_name (index.now.own.now ++ scope_of stack.now) name.now }
{
    let (prefix, local) = split_name(name);
    if prefix.is_empty() {
        return Some(ExpandedName { local, ns: "" });
    }
    let ns = bound_by(index, stack, prefix)?;
    Some(ExpandedName { local, ns })
}

// The expanded names of attributes, in order, if each has one.
fn names_by<'a>(
    alloc: Global,
    index: &Index<'a>,
    stack: &'a Scopes,
    others: &[RawAttribute<'a>],
) -> Result<Option<Vec<ExpandedName<'a>>>, NoMemory>
    requires { (q : List ℕ) → option_map (λ s. s.now) (tree.get_by (λ k. slice_cmp nat_cmp q k.now) index.now.first) ≡ scope.first_bound index.now.own.now q }
    ensures { IfOk result (λ o. option_map (λ v. map borrowed_name v.items) o
        ≡ Expansion.expanded_names (index.now.own.now ++ scope_of stack.now) (names_of (map attribute_of others.now))) }
{
    let mut names = Vec::with_capacity(alloc, others.len())?;
    for attribute in others {
        match expanded_by(index, stack, attribute.name) {
            Some(name) => names.push(name)?,
            None => return Ok(None),
        }
    }
    Ok(Some(names))
}

// The expanded names of attributes, in order, if each has one, found by an index of the declarations.
pub(crate) fn indexed_names<'a>(
    alloc: Global,
    own: &'a [Binding],
    stack: &'a Scopes,
    others: &[RawAttribute<'a>],
) -> Result<Option<Vec<ExpandedName<'a>>>, NoMemory>
    ensures { IfOk result (λ o. option_map (λ v. map borrowed_name v.items) o
        ≡ Expansion.expanded_names (own.now ++ scope_of stack.now) (names_of (map attribute_of others.now))) }
{
    let index = by_prefix(alloc, own)?;
    names_by(alloc, &index, stack, others)
}
