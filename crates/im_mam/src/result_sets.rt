//! Result sets (XEP-0059).
ghost use Rattle.std.specs.Prelude.{◌≡◌, [], IfOk, OnErr, OnOk, codes};
ghost use Rattle.std.specs.Option.{option_copied, option_map};
ghost use Rattle.im_payload.specs.Names.{result_sets};
ghost use Rattle.im_mam.specs.ResultSets.{set_child, set_item_where, set_text};
ghost use Rattle.xml_trees.specs.Trees.{element, no_nodes, with_nodes};
ghost use Rattle.xml_trees.specs.Views.{elem_view};
ghost use Rattle.im_stanza.specs.Errors.{trees_where};

use base_io::{NoMemory, Text};
use im_payload::{RESULT_SETS, push_text_child};
use std::alloc::Global;
use xml_trees::Element;

/// The first child of this name in the first `set` of an element. `None` where there is none.
pub(crate) fn set_child<'a>(element: &'a Element, name: &str) -> Option<&'a Element>
    ensures { option_map elem_view (option_copied result) ≡ set_child name.now (elem_view element.now) }
{
    match element.child(RESULT_SETS, "set") {
        None => None,
        Some(set) => set.child(RESULT_SETS, name),
    }
}

/// The text directly in that child.
pub(crate) fn set_text(
    alloc: Global,
    element: &Element,
    name: &str,
) -> Result<Option<Text>, NoMemory>
    ensures { IfOk result (λ text. text ≡ set_text name.now (elem_view element.now)) }
{
    match set_child(element, name) {
        None => Ok(None),
        Some(child) => Ok(Some(child.text(alloc)?)),
    }
}

/// A text that may be absent, borrowed.
pub(crate) fn text_where(text: &Option<Text>) -> Option<&str>
    ensures { option_copied result ≡ text.now }
{
    match text {
        None => None,
        Some(text) => Some(text.as_str()),
    }
}

/// A set without items.
pub(crate) fn set_element(alloc: Global) -> Result<Element, NoMemory>
    ensures { IfOk result (λ e. elem_view e ≡ element result_sets (codes "set") [] no_nodes) }
{
    Element::from_strs(alloc, RESULT_SETS, "set")
}

/// Adds an item with a text behind the others, where there is a text. A refusal leaves the set as it was.
#[tactic(auto, using(im_payload::proofs::WhereLemmas::nothing_added, im_payload::proofs::WhereLemmas::one_added))]
pub(crate) fn push_item(
    alloc: Global,
    set: &mut Element,
    name: &str,
    text: Option<&str>,
) -> Result<(), NoMemory>
    ensures ok { OnOk result (elem_view set.new ≡ with_nodes (elem_view set.old) (trees_where (set_item_where name.now (option_copied text.entry)))) }
    ensures err { OnErr result (elem_view set.new ≡ elem_view set.old) }
{
    match text {
        None => Ok(()),
        Some(text) => push_text_child(alloc, set, RESULT_SETS, name, text),
    }
}
