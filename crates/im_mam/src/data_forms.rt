//! Data forms (XEP-0004).
ghost use Rattle.std.specs.Prelude.{◌≡◌, find, IfOk, OnErr, OnOk};
ghost use Rattle.std.specs.Option.{option_copied, option_map};
ghost use Rattle.im_mam.specs.DataForms.{field_elem, field_of, field_value, field_where, form_of, form_type_elem, has_var, is_field, is_field_of, value_in};
ghost use Rattle.xml_trees.specs.Readers.{elements_of};
ghost use Rattle.xml_trees.specs.Trees.{with_nodes};
ghost use Rattle.xml_trees.specs.Views.{elem_view, nodes_view};
ghost use Rattle.im_stanza.specs.Errors.{trees_where};

use base_io::{NoMemory, Text};
use im_payload::{DATA_FORMS, child_text_or_empty, push_text_child, push_value};
use std::alloc::Global;
use xml_trees::{Element, Node};

/// Whether an element is a field.
pub(crate) fn is_field(element: &Element) -> bool
    ensures { result ≡ is_field (elem_view element.now) }
{
    element.is(DATA_FORMS, "field")
}

/// Whether a field has this name. One without `var` has none.
pub(crate) fn has_var(field: &Element, name: &str) -> bool
    ensures { result ≡ has_var name.now (elem_view field.now) }
{
    match field.attr("", "var") {
        None => false,
        Some(var) => var == name,
    }
}

fn is_field_of(element: &Element, name: &str) -> bool
    ensures { result ≡ is_field_of name.now (elem_view element.now) }
{
    is_field(element) && has_var(element, name)
}

// The first field of this name among nodes.
fn find_field<'a>(nodes: &'a [Node], name: &str) -> Option<&'a Element>
    ensures { option_map elem_view (option_copied result) ≡ find (is_field_of name.now) (elements_of (nodes_view nodes.now)) }
{
    for node in nodes {
        if let Node::Child(element) = node
            && is_field_of(element, name)
        {
            return Some(element);
        }
    }
    None
}

/// The form of a payload. `None` where there is none.
pub(crate) fn form_of(element: &Element) -> Option<&Element>
    ensures { option_map elem_view (option_copied result) ≡ form_of (elem_view element.now) }
{
    element.child(DATA_FORMS, "x")
}

/// The text of a form's first field of this name, empty where the field has no value. `None` where there is no such field.
pub(crate) fn value_in(alloc: Global, form: &Element, name: &str) -> Result<Option<Text>, NoMemory>
    ensures { IfOk result (λ text. text ≡ value_in name.now (elem_view form.now)) }
{
    match find_field(&form.children, name) {
        None => Ok(None),
        Some(field) => Ok(Some(child_text_or_empty(alloc, field, DATA_FORMS, "value")?)),
    }
}

/// The same of the form of a payload. `None` where there is no form.
pub(crate) fn field_value(
    alloc: Global,
    element: &Element,
    name: &str,
) -> Result<Option<Text>, NoMemory>
    ensures { IfOk result (λ text. text ≡ field_value name.now (elem_view element.now)) }
{
    match form_of(element) {
        None => Ok(None),
        Some(form) => value_in(alloc, form, name),
    }
}

/// The field that tells what a form is for.
pub(crate) fn form_type_element(alloc: Global, purpose: &str) -> Result<Element, NoMemory>
    ensures { IfOk result (λ e. elem_view e ≡ form_type_elem purpose.now) }
{
    let mut field = Element::from_strs(alloc, DATA_FORMS, "field")?;
    push_value(alloc, &mut field, "type", "hidden")?;
    push_value(alloc, &mut field, "var", "FORM_TYPE")?;
    push_text_child(alloc, &mut field, DATA_FORMS, "value", purpose)?;
    Ok(field)
}

fn field_element(alloc: Global, name: &str, value: &str) -> Result<Element, NoMemory>
    ensures { IfOk result (λ e. elem_view e ≡ field_elem name.now value.now) }
{
    let mut field = Element::from_strs(alloc, DATA_FORMS, "field")?;
    push_value(alloc, &mut field, "var", name)?;
    push_text_child(alloc, &mut field, DATA_FORMS, "value", value)?;
    Ok(field)
}

/// Adds a field behind the others, where there is a text. A refusal leaves the form as it was.
#[tactic(auto, using(im_payload::proofs::WhereLemmas::nothing_added, im_payload::proofs::WhereLemmas::one_added))]
pub(crate) fn push_field(
    alloc: Global,
    form: &mut Element,
    name: &str,
    value: Option<&str>,
) -> Result<(), NoMemory>
    ensures ok { OnOk result (elem_view form.new ≡ with_nodes (elem_view form.old) (trees_where (field_where name.now (option_copied value.entry)))) }
    ensures err { OnErr result (elem_view form.new ≡ elem_view form.old) }
{
    let Some(value) = value else {
        return Ok(());
    };
    let field = field_element(alloc, name, value)?;
    form.push_child(field)?;
    Ok(())
}
