//! What the header of a stream says.
ghost use Rattle.std.specs.Prelude.{◌≡◌, [], ◌∷◌, ◌++◌, IfOk};
ghost use Rattle.xml_names.specs.Headers;
ghost use Rattle.xml_names.specs.Names.{with_prefix};
ghost use Rattle.xml_names.specs.TagView.{tag_view};

use crate::expansion::ExpandedAttribute;
use crate::scopes::{Binding, XML_NAMESPACE, first_bound};
use crate::starts::Tag;
use base_io::{Copied, NoMemory, Text};
use std::alloc::Global;

/// The namespace of a stream's header (RFC 6120, section 4.8.1).
pub const STREAMS_NAMESPACE: &str = "http://etherx.jabber.org/streams";

/// What the header of a stream says (RFC 6120, sections 4.7 and 4.8).
#[derive(Debug, Drop)]
pub struct Header {
    /// The namespace name of the root; empty where it has none.
    pub ns: Text,
    /// The local name of the root.
    pub name: Text,
    /// The content namespace: the default namespace that the header declares; empty where it declares none.
    pub content: Text,
    /// The attribute `to`.
    pub to: Option<Text>,
    /// The attribute `from`.
    pub from: Option<Text>,
    /// The attribute `id`.
    pub id: Option<Text>,
    /// The attribute `version`.
    pub version: Option<Text>,
    /// The attribute `xml:lang`.
    pub lang: Option<Text>,
}

/// The tag of a stream's header: what it says, and what a stream keeps of it.
#[derive(Debug, Drop)]
pub struct HeaderTag {
    /// What it says.
    pub header: Header,
    /// The name as it is spelled, with its prefix: the footer repeats it.
    pub spelled: Text,
    /// The declarations in the order in which they are given.
    pub bindings: Vec<Binding>,
    /// Whether it is the tag of an empty element: then the stream ends with it.
    pub empty: bool,
}

/// The values of the attributes that a header may have.
#[derive(Drop)]
pub(crate) struct HeaderValues {
    to: Option<Text>,
    from: Option<Text>,
    id: Option<Text>,
    version: Option<Text>,
    lang: Option<Text>,
}

// No values.
fn no_values() -> HeaderValues
    ensures { result ≡ Headers.values_of [] }
{
    HeaderValues {
        to: None,
        from: None,
        id: None,
        version: None,
        lang: None,
    }
}

// Puts the value of an attribute without a namespace in its place.
fn put_plain(values: &mut HeaderValues, name: &str, value: Text)
    ensures { values.new ≡ Headers.plain_put values.old name.now value }
{
    if name == "to" {
        values.to = Some(value);
    } else if name == "from" {
        values.from = Some(value);
    } else if name == "id" {
        values.id = Some(value);
    } else if name == "version" {
        values.version = Some(value);
    }
}

// Puts an attribute's value in its place, if it is one of a header.
fn put(values: &mut HeaderValues, attribute: ExpandedAttribute)
    ensures { values.new ≡ Headers.put values.old attribute }
{
    let ExpandedAttribute { ns, name, value } = attribute;
    if ns.as_str().is_empty() {
        put_plain(values, name.as_str(), value);
    } else if ns.as_str() == XML_NAMESPACE && name.as_str() == "lang" {
        values.lang = Some(value);
    }
}

// The values of the attributes that a header may have, moved: of several with one name the first.
fn values_of(attributes: Vec<ExpandedAttribute>) -> HeaderValues
    ensures { result ≡ Headers.values_of attributes.items }
{
    let mut rest = attributes;
    let mut values = no_values();
    while let Some(attribute) = rest.pop() {
        put(&mut values, attribute);
    }
    values
}

// The default namespace that a tag declares, or the empty text.
fn declared_default(alloc: Global, tag: &Tag) -> Result<Text, NoMemory>
    ensures { IfOk result (λ t. t ≡ Headers.content_of (tag_view tag.now)) }
{
    match first_bound(tag.bindings.as_slice(), "") {
        Some(ns) => Ok(ns.copied(alloc)?),
        None => Ok(Text::new(alloc)),
    }
}

/// Whether a tag is that of a stream's header: `stream` in the streams namespace (RFC 6120, section 4.8.1).
pub fn opens_stream(tag: &Tag) -> bool
    ensures { result ≡ Headers.opens_stream (tag_view tag.now) }
{
    tag.ns.as_str() == STREAMS_NAMESPACE && tag.name.as_str() == "stream"
}

// A prefix, a colon and a local part.
fn joined(alloc: Global, prefix: &str, local: &str) -> Result<Text, NoMemory>
    ensures { IfOk result (λ t. t ≡ prefix.now ++ (58 ∷ local.now)) }
{
    let mut name = String::new(alloc);
    name.push_str(prefix)?;
    name.push_str(":")?;
    name.push_str(local)?;
    Ok(Text::from(name))
}

// The name of a tag as it is spelled.
fn spelled_name(alloc: Global, tag: &Tag) -> Result<Text, NoMemory>
    ensures { IfOk result (λ t. t ≡ with_prefix tag.now.prefix tag.now.name) }
{
    match &tag.prefix {
        Some(prefix) => joined(alloc, prefix.as_str(), tag.name.as_str()),
        None => Ok(Text::from_str(alloc, tag.name.as_str())?),
    }
}

/// What a start tag says as the header of a stream, its values moved. The tag is to be read with an empty scope, since a
/// header begins namespace scopes anew.
pub fn header_of(alloc: Global, tag: Tag) -> Result<HeaderTag, NoMemory>
    ensures header { IfOk result (λ h. h.header ≡ Headers.header_of (tag_view tag)) }
    ensures spelled { IfOk result (λ h. h.spelled ≡ (tag_view tag).spelled) }
    ensures bindings { IfOk result (λ h. h.bindings.items ≡ tag.bindings.items) }
    ensures empty { IfOk result (λ h. h.empty ≡ tag.empty) }
{
    let spelled = spelled_name(alloc, &tag)?;
    let content = declared_default(alloc, &tag)?;
    let Tag {
        ns,
        name,
        attributes,
        bindings,
        empty,
        ..
    } = tag;
    let HeaderValues {
        to,
        from,
        id,
        version,
        lang,
    } = values_of(attributes);
    let header = Header {
        ns,
        name,
        content,
        to,
        from,
        id,
        version,
        lang,
    };
    Ok(HeaderTag {
        header,
        spelled,
        bindings,
        empty,
    })
}
