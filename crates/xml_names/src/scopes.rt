//! Which namespace a prefix is bound to.
ghost use Rattle.std.specs.Prelude.{◌≡◌, ◌++◌, IfOk};
ghost use Rattle.std.specs.Option.{option_map};
ghost use Rattle.xml_names.specs.Scopes as scope;
ghost use Rattle.xml_names.specs.Scopes.{bound, scope_of};

use crate::open_scopes::Scopes;
use base_io::{Copied, NoMemory, Text};
use std::alloc::Global;

/// The namespace that the prefix `xml` is bound to (Namespaces in XML 1.0, section 3).
pub(crate) const XML_NAMESPACE: &str = "http://www.w3.org/XML/1998/namespace";

/// A prefix and the namespace that a declaration binds it to (Namespaces in XML 1.0, section 3).
#[derive(Debug, Drop)]
pub struct Binding {
    /// The prefix; empty for the default namespace.
    pub prefix: Text,
    /// The namespace name; empty where the default namespace is undeclared. The names that a tag expands are copies of
    /// it: a shared text costs them no memory, and those that `read_start` gives are shared.
    pub ns: Text,
}

// What the first binding of a prefix says.
pub(crate) fn first_bound<'a>(bindings: &'a [Binding], prefix: &str) -> Option<&'a Text>
    ensures { option_map (λ t. t.now) result ≡ scope.first_bound bindings.now prefix.now }
{
    for binding in bindings {
        if binding.prefix.as_str() == prefix {
            return Some(&binding.ns);
        }
    }
    None
}

// What the innermost declaration of a prefix says in open elements, as its characters.
pub(crate) fn stack_name<'a>(stack: &'a Scopes, prefix: &str) -> Option<&'a str>
    ensures { option_map (λ s. s.now) result ≡ scope.first_bound (scope_of stack.now) prefix.now }
{
    match stack.bound(prefix) {
        Some(ns) => Some(ns.as_str()),
        None => None,
    }
}

// What the innermost binding of a prefix says, in a tag with declarations of its own, inside a stack of others.
fn declared_in<'a>(own: &'a [Binding], stack: &'a Scopes, prefix: &str) -> Option<&'a Text>
    ensures { option_map (λ t. t.now) result ≡ scope.first_bound (own.now ++ scope_of stack.now) prefix.now }
{
    match first_bound(own, prefix) {
        Some(ns) => Some(ns),
        None => stack.bound(prefix),
    }
}

// The namespace that a prefix stands for in a tag with declarations of its own, inside a stack of others.
#[tactic(auto, unfolding(crate::specs::Scopes::bound))]
pub(crate) fn bound_in<'a>(own: &'a [Binding], stack: &'a Scopes, prefix: &str) -> Option<&'a str>
    ensures { option_map (λ s. s.now) result ≡ bound (own.now ++ scope_of stack.now) prefix.now }
{
    if prefix == "xml" {
        return Some(XML_NAMESPACE);
    }
    match declared_in(own, stack, prefix) {
        Some(ns) => Some(ns.as_str()),
        None => None,
    }
}

// The same as a text, which takes no memory for the characters of a shared one.
#[tactic(auto, unfolding(crate::specs::Scopes::bound))]
pub(crate) fn bound_copy(
    alloc: Global,
    own: &[Binding],
    stack: &Scopes,
    prefix: &str,
) -> Result<Option<Text>, NoMemory>
    ensures { IfOk result (λ o. o ≡ bound (own.now ++ scope_of stack.now) prefix.now) }
{
    if prefix == "xml" {
        return Ok(Some(Text::from_str(alloc, XML_NAMESPACE)?));
    }
    match declared_in(own, stack, prefix) {
        Some(ns) => Ok(Some(ns.copied(alloc)?)),
        None => Ok(None),
    }
}
