//! Whether few attributes have expanded names of their own: they are compared in pairs, with no memory.
ghost use Rattle.std.specs.Prelude.{◌≡◌, ◌++◌, map};
ghost use Rattle.std.specs.List.{list_any};
ghost use Rattle.std.specs.Option.{is_some};
ghost use Rattle.xml_names.specs.Expansion;
ghost use Rattle.xml_names.specs.Expansion.{borrowed_name, is_same_if};
ghost use Rattle.xml_names.specs.Scopes.{scope_of};
ghost use Rattle.xml_names.specs.Starts.{attributes_in};
ghost use Rattle.xml_tokens.specs.RawTags.{attribute_of};

use crate::expansion::{ExpandedName, attribute_ns, expanded_name};
use crate::names::split_name;
use crate::open_scopes::Scopes;
use crate::scopes::Binding;
use xml_tokens::RawAttribute;

/// The names of up to so many attributes are compared in pairs.
pub(crate) const FEW_NAMES: usize = 8;

// Whether an attribute with this spelled name has an expanded name. Its namespace is asked for only where the local
// names are equal.
#[tactic(auto, unfolding(crate::specs::Expansion::expanded_name))]
fn is_named(own: &[Binding], stack: &Scopes, name: &ExpandedName<'_>, spelled: &str) -> bool
    ensures { result ≡ is_same_if (borrowed_name name.now) (Expansion.expanded_name (own.now ++ scope_of stack.now) spelled.now) }
{
    let (prefix, local) = split_name(spelled);
    if name.local != local {
        return false;
    }
    match attribute_ns(own, stack, prefix) {
        Some(ns) => name.ns == ns,
        None => false,
    }
}

// Whether some attribute has an expanded name.
fn some_is_named(
    own: &[Binding],
    stack: &Scopes,
    name: &ExpandedName<'_>,
    others: &[RawAttribute<'_>],
) -> bool
    ensures { result ≡ list_any (λ a. is_same_if (borrowed_name name.now) (Expansion.expanded_name (own.now ++ scope_of stack.now) a.name.now)) others.now }
{
    for attribute in others {
        if is_named(own, stack, name, attribute.name) {
            return true;
        }
    }
    false
}

// Whether each attribute has an expanded name, and no two have the same.
pub(crate) fn have_names_in_pairs(
    own: &[Binding],
    stack: &Scopes,
    others: &[RawAttribute<'_>],
) -> bool
    ensures { result ≡ is_some (attributes_in (own.now ++ scope_of stack.now) (map attribute_of others.now)) }
{
    for at in 0..others.len() {
        match expanded_name(own, stack, others[at].name) {
            Some(name) => {
                if some_is_named(own, stack, &name, &others[at + 1..]) {
                    return false;
                }
            }
            None => return false,
        }
    }
    true
}
