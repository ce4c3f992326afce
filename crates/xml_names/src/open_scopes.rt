//! The declarations of open elements, and what each prefix is bound to by them.
ghost use Rattle.std.specs.Prelude.{◌≡◌, ◌-◌, ℕ, true, List, [], ◌∷◌, ◌++◌, length, take, OnOk, OnErr};
ghost use Rattle.std.specs.Option.{option_map};
ghost use Rattle.xml_names.specs.Bound;
ghost use Rattle.xml_names.specs.Bound.{names_in, with_name, with_names, without_name};
ghost use Rattle.xml_names.specs.Scopes.{first_bound, scope_of};

use crate::scopes::Binding;
use base_io::{Copied, NoMemory, Text};
use std::alloc::Global;
use std::collections::BTreeMap;
use std::marker::Model;

// A prefix that isn't there is bound to a namespace.
fn begin(
    alloc: Global,
    index: &mut BTreeMap<String, Vec<Text>>,
    prefix: &str,
    ns: Text,
) -> Result<(), NoMemory>
    requires { names_in index.old prefix.now ≡ [] }
    ensures ok { OnOk result ((q : List ℕ) → names_in index.new q ≡ with_name prefix.now ns q (names_in index.old q)) }
    ensures err { OnErr result ((q : List ℕ) → names_in index.new q ≡ names_in index.old q) }
{
    let mut names = Vec::with_capacity(alloc, 1)?;
    names.push(ns)?;
    index.insert(String::from_str(alloc, prefix)?, names)?;
    Ok(())
}

// A prefix is bound to one namespace more, inside the others.
fn bind(
    alloc: Global,
    index: &mut BTreeMap<String, Vec<Text>>,
    prefix: &str,
    ns: Text,
) -> Result<(), NoMemory>
    ensures ok { OnOk result ((q : List ℕ) → names_in index.new q ≡ with_name prefix.now ns q (names_in index.old q)) }
    ensures err { OnErr result ((q : List ℕ) → names_in index.new q ≡ names_in index.old q) }
{
    match index.get_mut(prefix) {
        Some(names) => {
            if names.push(ns).is_err() {
                return Err(NoMemory);
            }
            Ok(())
        }
        None => begin(alloc, index, prefix, ns),
    }
}

// The innermost namespace of a prefix leaves. Answers whether none is left.
fn shorten(index: &mut BTreeMap<String, Vec<Text>>, prefix: &str) -> bool
    ensures others { (q : List ℕ) → names_in index.new q ≡ without_name prefix.now q (names_in index.old q) }
    ensures none { result ≡ true → names_in index.new prefix.now ≡ [] }
{
    match index.get_mut(prefix) {
        Some(names) => {
            names.pop();
            names.is_empty()
        }
        None => false,
    }
}

// A prefix with no namespace leaves.
fn forget(index: &mut BTreeMap<String, Vec<Text>>, prefix: &str)
    requires { names_in index.old prefix.now ≡ [] }
    ensures { (q : List ℕ) → names_in index.new q ≡ names_in index.old q }
{
    index.remove(prefix);
}

// The innermost namespace of a prefix leaves, and the prefix with its last.
fn unbind(index: &mut BTreeMap<String, Vec<Text>>, prefix: &str)
    ensures { (q : List ℕ) → names_in index.new q ≡ without_name prefix.now q (names_in index.old q) }
{
    if shorten(index, prefix) {
        forget(index, prefix);
    }
}

// What declarations bound leaves.
fn unbind_all(index: &mut BTreeMap<String, Vec<Text>>, own: &[Binding])
    ensures { (q : List ℕ) (names : List (List ℕ)) → names_in index.old q ≡ with_names own.now q names → names_in index.new q ≡ names }
{
    for binding in own {
        unbind(index, binding.prefix.as_str());
    }
}

// What a declaration binds.
fn bind_one(
    alloc: Global,
    index: &mut BTreeMap<String, Vec<Text>>,
    binding: &Binding,
) -> Result<(), NoMemory>
    ensures ok { OnOk result ((q : List ℕ) → names_in index.new q ≡ with_name binding.now.prefix binding.now.ns q (names_in index.old q)) }
    ensures err { OnErr result ((q : List ℕ) → names_in index.new q ≡ names_in index.old q) }
{
    let ns = binding.ns.copied(alloc)?;
    bind(alloc, index, binding.prefix.as_str(), ns)
}

// What declarations bind, the last of them first, so that the first of several with one prefix is the innermost.
fn bind_all(
    alloc: Global,
    index: &mut BTreeMap<String, Vec<Text>>,
    own: &[Binding],
) -> Result<(), NoMemory>
    ensures ok { OnOk result ((q : List ℕ) → names_in index.new q ≡ with_names own.now q (names_in index.old q)) }
    ensures err { OnErr result ((q : List ℕ) → names_in index.new q ≡ names_in index.old q) }
{
    for i in (0..own.len()).rev() {
        if let Err(NoMemory) = bind_one(alloc, index, &own[i]) {
            unbind_all(index, &own[i + 1..]);
            return Err(NoMemory);
        }
    }
    Ok(())
}

/// The declarations of open elements (Namespaces in XML 1.0, section 6.1). Contracts see the lists of them, the
/// outermost first. A prefix is looked up in a time that grows with the logarithm of the number of prefixes.
#[derive(Drop)]
pub struct Scopes {
    stack: Vec<Vec<Binding>>,
    index: BTreeMap<String, Vec<Text>>,
}

impl Model for Scopes {
    ghost use Rattle.std.specs.Prelude.{◌≡◌, ℕ, List, [], Vec};
    ghost use Rattle.std.specs.declared.alloc.Global.{Global};
    ghost use Rattle.xml_names.specs.Bound.{names_in, with_names};
    ghost use Rattle.xml_names.specs.Scopes.{scope_of};
    ghost use Rattle.xml_names.specs.declared.scopes.Binding.{Binding};

    ghost Value = { List (Vec Binding Global) };

    ghost view = { λ s. s.stack.items };

    ghost invariant = { λ s. (q : List ℕ) → names_in s.index q ≡ with_names (scope_of s.stack.items) q [] };
}

impl Scopes {
    /// The scope outside all elements. It takes no memory.
    pub fn new(alloc: Global) -> Scopes
        ensures { result ≡ [] }
    {
        Scopes {
            stack: Vec::new(alloc),
            index: BTreeMap::new(alloc),
        }
    }

    /// An element begins that has these declarations. A refusal leaves the scopes as they were.
    pub fn open(&mut self, alloc: Global, own: Vec<Binding>) -> Result<(), NoMemory>
        ensures ok { OnOk result (self.new ≡ self.old ++ own ∷ []) }
        ensures err { OnErr result (self.new ≡ self.old) }
    {
        self.stack.reserve(1)?;
        bind_all(alloc, &mut self.index, own.as_slice())?;
        match self.stack.push(own) {
            Ok(()) => Ok(()),
            Err(_) => unreachable!(),
        }
    }

    /// The innermost element ends, if there is one.
    pub fn close(&mut self)
        ensures { self.new ≡ take (length self.old - 1) self.old }
    {
        if let Some(own) = self.stack.pop() {
            unbind_all(&mut self.index, own.as_slice());
        }
    }

    // What the innermost declaration of a prefix says.
    pub(crate) fn bound(&self, prefix: &str) -> Option<&Text>
        ensures { option_map (λ t. t.now) result ≡ first_bound (scope_of self.now) prefix.now }
    {
        match self.index.get(prefix) {
            Some(names) => names.as_slice().last(),
            None => None,
        }
    }
}
