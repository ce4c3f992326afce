//! The element of a stanza, made of its parts (RFC 6120, section 8.1).
ghost use Rattle.std.specs.Prelude.{◌≡◌, ◌++◌, IfOk, OnOk};
ghost use Rattle.std.specs.Option.{option_copied};
ghost use Rattle.im_stanza.specs.Names.{client_ns};
ghost use Rattle.im_stanza.specs.Written.{attr_where, attrs_written, unless_empty};
ghost use Rattle.xml_trees.specs.Trees.{element};
ghost use Rattle.xml_trees.specs.Views.{elem_view, nodes_view};

use crate::names::{CLIENT, XML};
use base_io::{NoMemory, Text};
use std::alloc::Global;
use xml_trees::{Attr, Attrs, Element, Nodes};

/// The attributes of a stanza, each where it has a value.
#[derive(Drop)]
pub struct StanzaAttrs<'a> {
    pub from: Option<&'a str>,
    pub id: Option<&'a str>,
    pub to: Option<&'a str>,
    pub kind: Option<&'a str>,
    pub lang: Option<&'a str>,
}

/// The element of a stanza of this name, with its attributes and what it contains, which is moved. Nothing is judged: a
/// `to` may be no address, and a `type` may be absent.
pub fn stanza_element(
    alloc: Global,
    name: &str,
    given: &StanzaAttrs,
    payload: Nodes,
) -> Result<Element, NoMemory>
    ensures { IfOk result (λ e. elem_view e ≡ element client_ns name.now (attrs_written (option_copied given.now.from) (option_copied given.now.id) (option_copied given.now.to) (option_copied given.now.kind) (option_copied given.now.lang)) (nodes_view payload.items)) }
{
    Ok(Element {
        ns: Text::from_str(alloc, CLIENT)?,
        name: Text::from_str(alloc, name)?,
        attrs: stanza_attrs(alloc, given)?,
        children: payload.into_items(),
    })
}

// Adds an attribute where it has a value.
fn push_where(
    alloc: Global,
    attrs: &mut Attrs,
    ns: &str,
    name: &str,
    value: Option<&str>,
) -> Result<(), NoMemory>
    ensures { OnOk result (attrs.new.items ≡ attrs.old.items ++ attr_where ns.now name.now (option_copied value.entry)) }
{
    match value {
        None => Ok(()),
        Some(value) => attrs.push(Attr::from_strs(alloc, ns, name, value)?),
    }
}

// The attributes as a list.
fn stanza_attrs(alloc: Global, given: &StanzaAttrs) -> Result<Attrs, NoMemory>
    ensures { IfOk result (λ attrs. attrs.items ≡ attrs_written (option_copied given.now.from) (option_copied given.now.id) (option_copied given.now.to) (option_copied given.now.kind) (option_copied given.now.lang)) }
{
    let mut attrs = Attrs::new(alloc);
    push_where(alloc, &mut attrs, "", "from", given.from)?;
    push_where(alloc, &mut attrs, "", "id", given.id)?;
    push_where(alloc, &mut attrs, "", "to", given.to)?;
    push_where(alloc, &mut attrs, "", "type", given.kind)?;
    push_where(alloc, &mut attrs, XML, "lang", given.lang)?;
    Ok(attrs)
}

/// The text where it isn't empty.
pub(crate) fn unless_empty(text: &str) -> Option<&str>
    ensures { option_copied result ≡ unless_empty text.now }
{
    if text.is_empty() { None } else { Some(text) }
}
