//! Tags as they are written, into memory that was reserved.
ghost use Rattle.std.specs.Prelude.{◌≡◌, ◌+◌, ◌-◌, ◌<◌, ◌≤◌, ◌^◌, ◌∷◌, ◌++◌, codes, length};
ghost use Rattle.std.specs.List.{flat_map};
ghost use Rattle.std.specs.Str.{bytes_eq};
ghost use Rattle.xml_writer.specs.Canon;
ghost use Rattle.xml_writer.specs.Canon.{assignment, assignments, declared_default, foreign, next_number, number_text, opened};
ghost use Rattle.xml_writer.specs.Canon.{spelled, spelled_attribute, spelled_attributes, spelled_name, written_end_tag};

use base_io::Bytes;
use itoa::Buffer;
use xml_tokens::append_value_reserved;
use xml_trees::Attr;

/// The namespace of a stream's header and footer (RFC 6120, section 4.8.1).
pub(crate) const STREAMS_NAMESPACE: &str = "http://etherx.jabber.org/streams";

/// The namespace of the prefix `xml` (Namespaces in XML 1.0, section 3).
pub(crate) const XML_NAMESPACE: &str = "http://www.w3.org/XML/1998/namespace";

/// How many bytes the shorter of these two has.
const SHORTEST: usize = 32;

/// Adds parts at the end, one behind the other.
pub(crate) fn put_parts(out: &mut Bytes, parts: &[&[u8]])
    requires { length (flat_map (λ part. part.now) parts.now) ≤ out.old.spare }
    ensures items { out.new.items ≡ out.old.items ++ flat_map (λ part. part.now) parts.now }
    ensures spare { out.old.spare ≤ out.new.spare + length (flat_map (λ part. part.now) parts.now) }
{
    for part in parts {
        out.append_reserved(part);
    }
}

/// Adds an attribute, whose name is in parts.
#[tactic(auto, unfolding(crate::specs::Canon::assignment))]
pub(crate) fn put_assignment(out: &mut Bytes, name: &[&[u8]], value: &[u8])
    requires { length (assignment (spelled (flat_map (λ part. part.now) name.now) value.now)) ≤ out.old.spare }
    ensures items { out.new.items ≡ out.old.items ++ assignment (spelled (flat_map (λ part. part.now) name.now) value.now) }
    ensures spare { out.old.spare ≤ out.new.spare + length (assignment (spelled (flat_map (λ part. part.now) name.now) value.now)) }
{
    out.push_reserved(b' ');
    put_parts(out, name);
    out.push_reserved(b'=');
    out.push_reserved(b'\'');
    append_value_reserved(out, value);
    out.push_reserved(b'\'');
}

// Adds the declaration of a numbered prefix.
fn put_declaration(out: &mut Bytes, digits: &[u8], ns: &[u8])
    requires { length (assignment (spelled (codes "xmlns:a" ++ digits.now) ns.now)) ≤ out.old.spare }
    ensures items { out.new.items ≡ out.old.items ++ assignment (spelled (codes "xmlns:a" ++ digits.now) ns.now) }
    ensures spare { out.old.spare ≤ out.new.spare + length (assignment (spelled (codes "xmlns:a" ++ digits.now) ns.now)) }
{
    put_assignment(out, &[b"xmlns:a".as_slice(), digits], ns);
}

// Adds an attribute with a numbered prefix.
fn put_prefixed(out: &mut Bytes, digits: &[u8], attr: &Attr)
    requires { length (assignment (spelled (97 ∷ (digits.now ++ (58 ∷ attr.now.name))) attr.now.value)) ≤ out.old.spare }
    ensures items { out.new.items ≡ out.old.items ++ assignment (spelled (97 ∷ (digits.now ++ (58 ∷ attr.now.name))) attr.now.value) }
    ensures spare { out.old.spare ≤ out.new.spare + length (assignment (spelled (97 ∷ (digits.now ++ (58 ∷ attr.now.name))) attr.now.value)) }
{
    let name = attr.name.as_str().as_bytes();
    let parts = [b"a".as_slice(), digits, b":".as_slice(), name];
    put_assignment(out, &parts, attr.value.as_str().as_bytes());
}

// Adds an attribute with the prefix `a` and digits, and its declaration.
fn put_foreign(out: &mut Bytes, digits: &[u8], attr: &Attr)
    requires { length (assignments (foreign digits.now attr.now)) ≤ out.old.spare }
    ensures items { out.new.items ≡ out.old.items ++ assignments (foreign digits.now attr.now) }
    ensures spare { out.old.spare ≤ out.new.spare + length (assignments (foreign digits.now attr.now)) }
{
    put_declaration(out, digits, attr.ns.as_str().as_bytes());
    put_prefixed(out, digits, attr);
}

// The same with the digits of a number.
#[tactic(auto, using(crate::proofs::WrittenTags::decimal_is))]
fn put_numbered(out: &mut Bytes, number: usize, attr: &Attr)
    requires { length (assignments (foreign (number_text number) attr.now)) ≤ out.old.spare }
    ensures items { out.new.items ≡ out.old.items ++ assignments (foreign (number_text number) attr.now) }
    ensures spare { out.old.spare ≤ out.new.spare + length (assignments (foreign (number_text number) attr.now)) }
{
    let mut buffer = Buffer::new();
    put_foreign(out, buffer.format(number).as_bytes(), attr);
}

/// Whether an attribute gets a numbered prefix.
pub(crate) fn is_foreign(attr: &Attr) -> bool
    ensures { result ≡ Canon.is_foreign attr.now }
{
    !attr.ns.as_str().is_empty() && attr.ns.as_str() != XML_NAMESPACE
}

// Adds an attribute, with its declaration where it has one.
#[tactic(auto, unfolding(crate::specs::Canon::spelled_attribute))]
fn put_attribute(out: &mut Bytes, number: usize, attr: &Attr)
    requires { length (assignments (spelled_attribute number attr.now)) ≤ out.old.spare }
    ensures items { out.new.items ≡ out.old.items ++ assignments (spelled_attribute number attr.now) }
    ensures spare { out.old.spare ≤ out.new.spare + length (assignments (spelled_attribute number attr.now)) }
{
    let name = attr.name.as_str().as_bytes();
    let value = attr.value.as_str().as_bytes();
    if attr.ns.as_str().is_empty() {
        put_assignment(out, &[name], value);
    } else if attr.ns.as_str() == XML_NAMESPACE {
        put_assignment(out, &[b"xml:".as_slice(), name], value);
    } else {
        put_numbered(out, number, attr);
    }
}

/// The number of the next prefix behind an attribute.
#[tactic(auto, unfolding(crate::specs::Canon::next_number))]
pub(crate) fn number_after(number: usize, attr: &Attr) -> usize
    requires { number < 2 ^ 64 - 1 }
    ensures { result ≡ next_number number attr.now }
{
    if is_foreign(attr) { number + 1 } else { number }
}

// Adds the attributes of a tag.
fn put_attributes(out: &mut Bytes, attrs: &[Attr])
    requires { length (assignments (spelled_attributes 0 attrs.now)) ≤ out.old.spare }
    ensures items { out.new.items ≡ out.old.items ++ assignments (spelled_attributes 0 attrs.now) }
    ensures spare { out.old.spare ≤ out.new.spare + length (assignments (spelled_attributes 0 attrs.now)) }
{
    let mut number = 0usize;
    for attr in attrs {
        put_attribute(out, number, attr);
        number = number_after(number, attr);
    }
}

// Whether an element of a namespace has a prefix. Most names of namespaces are shorter than the two that give one.
fn has_prefix(ns: &str) -> bool
    ensures { result ≡ Canon.has_prefix ns.now }
{
    if ns.len() < SHORTEST {
        return false;
    }
    ns == STREAMS_NAMESPACE || ns == XML_NAMESPACE
}

/// Whether a namespace is to be declared as the default one.
pub(crate) fn declares_default(default: &str, ns: &str) -> bool
    ensures { result ≡ Canon.declares_default default.now ns.now }
{
    !has_prefix(ns) && ns != default
}

/// The default namespace inside an element of a namespace.
#[tactic(auto, unfolding(crate::specs::Canon::default_inside))]
pub(crate) fn default_inside<'a>(default: &'a str, ns: &'a str) -> &'a str
    ensures { result.now ≡ Canon.default_inside default.now ns.now }
{
    if has_prefix(ns) { default } else { ns }
}

// Adds the declaration of the default namespace where it is due.
#[tactic(auto, unfolding(crate::specs::Canon::declared_default))]
fn put_default(out: &mut Bytes, default: &str, ns: &str)
    requires { length (assignments (declared_default default.now ns.now)) ≤ out.old.spare }
    ensures items { out.new.items ≡ out.old.items ++ assignments (declared_default default.now ns.now) }
    ensures spare { out.old.spare ≤ out.new.spare + length (assignments (declared_default default.now ns.now)) }
{
    if declares_default(default, ns) {
        put_assignment(out, &[b"xmlns".as_slice()], ns.as_bytes());
    }
}

// Adds the name of an element, with its prefix where it has one, told by each namespace that gives one.
#[tactic(auto, unfolding(crate::specs::Canon::spelled_name))]
fn put_told_name(out: &mut Bytes, ns: &str, name: &str)
    requires { length (spelled_name ns.now name.now) ≤ out.old.spare }
    ensures items { out.new.items ≡ out.old.items ++ spelled_name ns.now name.now }
    ensures spare { out.old.spare ≤ out.new.spare + length (spelled_name ns.now name.now) }
{
    let name = name.as_bytes();
    if ns == STREAMS_NAMESPACE {
        put_parts(out, &[b"stream:".as_slice(), name]);
    } else if ns == XML_NAMESPACE {
        put_parts(out, &[b"xml:".as_slice(), name]);
    } else {
        out.append_reserved(name);
    }
}

// Adds the name of an element, with its prefix where it has one. Most have none.
#[tactic(auto, using(crate::proofs::WrittenTags::name_alone))]
fn put_name(out: &mut Bytes, ns: &str, name: &str)
    requires { length (spelled_name ns.now name.now) ≤ out.old.spare }
    ensures items { out.new.items ≡ out.old.items ++ spelled_name ns.now name.now }
    ensures spare { out.old.spare ≤ out.new.spare + length (spelled_name ns.now name.now) }
{
    if has_prefix(ns) {
        put_told_name(out, ns, name);
    } else {
        out.append_reserved(name.as_bytes());
    }
}

/// Adds a start tag but for its end.
pub(crate) fn put_start(out: &mut Bytes, default: &str, ns: &str, name: &str, attrs: &[Attr])
    requires { length (opened default.now ns.now name.now attrs.now) ≤ out.old.spare }
    ensures items { out.new.items ≡ out.old.items ++ opened default.now ns.now name.now attrs.now }
    ensures spare { out.old.spare ≤ out.new.spare + length (opened default.now ns.now name.now attrs.now) }
{
    out.push_reserved(b'<');
    put_name(out, ns, name);
    put_default(out, default, ns);
    put_attributes(out, attrs);
}

/// Adds an end tag.
pub(crate) fn put_end(out: &mut Bytes, ns: &str, name: &str)
    requires { length (written_end_tag ns.now name.now) ≤ out.old.spare }
    ensures items { out.new.items ≡ out.old.items ++ written_end_tag ns.now name.now }
    ensures spare { out.old.spare ≤ out.new.spare + length (written_end_tag ns.now name.now) }
{
    out.push_reserved(b'<');
    out.push_reserved(b'/');
    put_name(out, ns, name);
    out.push_reserved(b'>');
}
