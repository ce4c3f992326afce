ghost use Rattle.std.specs.Prelude.{◌≡◌, ◌↔◌, IfOk, IsTrue, OnOk};
ghost use Rattle.std.specs.List.{dedup};
ghost use Rattle.std.specs.List.Sorted.{IsSorted, IsStable, IsStrictlySortedBy};
ghost use Rattle.std.specs.Option.{option_copied};
ghost use Rattle.std.specs.Ordering.{eq_by_cmp};
ghost use Rattle.xml_trees.specs.Attributes.{attribute, is_above, name_order, sorted_attributes};

use base_io::{Copied, ListOf, NoMemory, Text};
use std::alloc::Global;
use std::cmp::Ordering;

/// An attribute of an element: its namespace, which is empty where it has none, its name without a prefix, and its value
/// (Namespaces in XML 1.0, section 2.1).
#[derive(Drop)]
pub struct Attr {
    pub ns: Text,
    pub name: Text,
    pub value: Text,
}

/// The attributes of an element, in order.
pub type Attrs = ListOf<Attr>;

impl Attr {
    /// An attribute with copies of a namespace, a name and a value.
    pub fn from_strs(alloc: Global, ns: &str, name: &str, value: &str) -> Result<Attr, NoMemory>
        ensures { IfOk result (λ a. a ≡ attribute ns.now name.now value.now) }
    {
        Ok(Attr {
            ns: Text::from_str(alloc, ns)?,
            name: Text::from_str(alloc, name)?,
            value: Text::from_str(alloc, value)?,
        })
    }
}

impl Copied for Attr {
    fn copied(&self, alloc: Global) -> Result<Attr, NoMemory> {
        Ok(Attr {
            ns: self.ns.copied(alloc)?,
            name: self.name.copied(alloc)?,
            value: self.value.copied(alloc)?,
        })
    }
}

// How the names of two attributes are ordered: by the bytes of the namespace, which most have not, and then by those of the
// name.
fn order_of_names(a: &Attr, b: &Attr) -> Ordering
    ensures { result ≡ name_order a.now b.now }
{
    if a.ns.as_str().is_empty() && b.ns.as_str().is_empty() {
        return a.name.as_str().cmp(b.name.as_str());
    }
    match a.ns.as_str().cmp(b.ns.as_str()) {
        Ordering::Less => Ordering::Less,
        Ordering::Equal => a.name.as_str().cmp(b.name.as_str()),
        Ordering::Greater => Ordering::Greater,
    }
}

// Whether the name of an attribute is above that of the one before it.
fn stands_above(before: Option<&Attr>, attr: &Attr) -> bool
    ensures { result ≡ is_above (option_copied before.entry) attr.now }
{
    match before {
        None => true,
        Some(b) => order_of_names(b, attr).is_lt(),
    }
}

/// Whether the names ascend, so that no two are one.
pub(crate) fn are_in_order(attrs: &[Attr]) -> bool
    ensures { IsTrue result ↔ IsStrictlySortedBy name_order attrs.now }
{
    let mut before = None;
    for attr in attrs {
        if !stands_above(before, attr) {
            return false;
        }
        before = Some(attr);
    }
    true
}

// Sorts by name, and leaves attributes of one name in their order.
fn sort_by_name(attrs: &mut Vec<Attr>) -> Result<(), NoMemory>
    ensures sorted { OnOk result (IsSorted name_order attrs.new.items) }
    ensures stable { OnOk result (IsStable name_order attrs.old.items attrs.new.items) }
{
    attrs.sort_by(|a, b| order_of_names(a, b))?;
    Ok(())
}

// Drops an attribute that stands behind one of its name.
fn drop_repeats(attrs: &mut Vec<Attr>)
    ensures { attrs.new.items ≡ dedup (eq_by_cmp name_order) attrs.old.items }
{
    attrs.dedup_by(|later, kept| order_of_names(later, kept).is_eq());
}

/// The attributes in the order of their names, of several with one name the first, moved.
pub fn tidy_attrs(attrs: Attrs) -> Result<Attrs, NoMemory>
    ensures { IfOk result (λ kept. kept.items ≡ sorted_attributes attrs.items) }
{
    if are_in_order(attrs.as_slice()) {
        return Ok(attrs);
    }
    let mut given = attrs.into_items();
    sort_by_name(&mut given)?;
    drop_repeats(&mut given);
    Ok(Attrs::from(given))
}
