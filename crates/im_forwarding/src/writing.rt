//! Parts of messages are written after what is there. A refusal leaves bytes of which a part may be written.
ghost use Rattle.std.specs.Prelude.{◌≡◌, [], ◌++◌, None, Some, codes, OnOk};
ghost use Rattle.std.specs.Option.{option_copied};
ghost use Rattle.im_extensions.specs.Forwarding.{delay_elem};
ghost use Rattle.im_payload.specs.Names.{forwarding};
ghost use Rattle.im_stamp.specs.Dates.{stamp_at};
ghost use Rattle.im_stanza.specs.Names.{client_ns};
ghost use Rattle.im_stanza.specs.Written.{attrs_written, unless_empty};
ghost use Rattle.xml_trees.specs.Trees.{attributes_of, name_of, namespace_of};
ghost use Rattle.xml_trees.specs.Views.{elem_view};
ghost use Rattle.xml_writer.specs.Canon.{written, written_end_tag, written_start_tag};

use base_io::{Bytes, NoMemory};
use im_payload::{DELAYS, FORWARDING, moment_text, push_value};
use im_stanza::{CLIENT, StanzaAttrs, stanza_element};
use std::alloc::Global;
use xml_trees::{Attrs, Element, Node, Nodes};
use xml_writer::{write_end, write_nodes, write_start};

/// The text where it isn't empty.
pub(crate) fn unless_empty(text: &str) -> Option<&str>
    ensures { option_copied result ≡ unless_empty text.now }
{
    if text.is_empty() { None } else { Some(text) }
}

/// Writes an element, where a default namespace is in force.
#[tactic(auto, using(crate::proofs::PartSteps::one_written))]
pub(crate) fn write_element(
    alloc: Global,
    out: &mut Bytes,
    default: &str,
    element: Element,
) -> Result<(), NoMemory>
    ensures { OnOk result (out.new.items ≡ out.old.items ++ written default.now (elem_view element)) }
{
    let mut nodes = Nodes::new(alloc);
    nodes.push(Node::Child(element))?;
    write_nodes(out, default, nodes.as_slice())
}

/// Writes the start tag of an element that has something inside.
pub(crate) fn open_element(
    out: &mut Bytes,
    default: &str,
    element: &Element,
) -> Result<(), NoMemory>
    ensures { OnOk result (out.new.items ≡ out.old.items ++ written_start_tag default.now (namespace_of (elem_view element.now)) (name_of (elem_view element.now)) (attributes_of (elem_view element.now))) }
{
    let ns = element.ns.as_str();
    let name = element.name.as_str();
    write_start(out, default, ns, name, element.attrs.as_slice())
}

/// Writes the start tag of an element without attributes that has something inside.
pub(crate) fn open_bare(
    alloc: Global,
    out: &mut Bytes,
    default: &str,
    ns: &str,
    name: &str,
) -> Result<(), NoMemory>
    ensures { OnOk result (out.new.items ≡ out.old.items ++ written_start_tag default.now ns.now name.now []) }
{
    let attrs = Attrs::new(alloc);
    write_start(out, default, ns, name, attrs.as_slice())
}

/// Writes the start tag of a message at the top that has something inside: from and to these addresses, of this type where
/// there is one.
pub(crate) fn open_message<'a>(
    alloc: Global,
    out: &mut Bytes,
    from: &'a str,
    to: &'a str,
    kind: Option<&'a str>,
) -> Result<(), NoMemory>
    ensures { OnOk result (out.new.items ≡ out.old.items ++ written_start_tag client_ns client_ns (codes "message") (attrs_written (Some from.now) None (Some to.now) (option_copied kind.entry) None)) }
{
    let given = StanzaAttrs {
        from: Some(from),
        id: None,
        to: Some(to),
        kind,
        lang: None,
    };
    let element = stanza_element(alloc, "message", &given, Nodes::new(alloc))?;
    open_element(out, CLIENT, &element)
}

/// Writes the end tag of a message.
pub(crate) fn close_message(out: &mut Bytes) -> Result<(), NoMemory>
    ensures { OnOk result (out.new.items ≡ out.old.items ++ written_end_tag client_ns (codes "message")) }
{
    write_end(out, CLIENT, "message")
}

/// Writes the start tag of a `forwarded` and the delay that is first in it: what follows was sent at this moment
/// (XEP-0297, section 3; XEP-0203).
pub(crate) fn open_forwarded(
    alloc: Global,
    out: &mut Bytes,
    default: &str,
    moment: u64,
) -> Result<(), NoMemory>
    ensures { OnOk result (out.new.items ≡ out.old.items ++ (written_start_tag default.now forwarding (codes "forwarded") [] ++ written forwarding (delay_elem (stamp_at moment)))) }
{
    let stamp = moment_text(alloc, moment)?;
    let mut delay = Element::from_strs(alloc, DELAYS, "delay")?;
    push_value(alloc, &mut delay, "stamp", stamp.as_str())?;
    open_bare(alloc, out, default, FORWARDING, "forwarded")?;
    write_element(alloc, out, FORWARDING, delay)
}

/// Writes the end tag of a `forwarded`.
pub(crate) fn close_forwarded(out: &mut Bytes) -> Result<(), NoMemory>
    ensures { OnOk result (out.new.items ≡ out.old.items ++ written_end_tag forwarding (codes "forwarded")) }
{
    write_end(out, FORWARDING, "forwarded")
}
