//! Parts of an element as they are written, so that what many recipients get alike is spelled once.
ghost use Rattle.std.specs.Prelude.{◌≡◌, ◌+◌, ◌-◌, ◌≤◌, ◌^◌, ◌++◌, length, min, OnErr, OnOk};
ghost use Rattle.xml_writer.specs.Canon.{written_end_tag, written_nodes, written_start_tag};
ghost use Rattle.xml_trees.specs.Views.{nodes_view};

use crate::tag_lengths::{end_len, start_len};
use crate::tag_writing::{put_end, put_start};
use crate::writing::{make_room, node_len, put_node};
use base_io::{Bytes, NoMemory};
use xml_trees::{Attr, Node};

// The length of nodes, where a default namespace is in force.
fn all_len(default: &str, nodes: &[Node]) -> usize
    ensures { result ≡ min (length (written_nodes default.now (nodes_view nodes.now))) (2 ^ 64 - 1) }
{
    let mut len = 0usize;
    for node in nodes {
        len = len.saturating_add(node_len(default, node));
    }
    len
}

// Adds nodes, where a default namespace is in force.
fn put_all(out: &mut Bytes, default: &str, nodes: &[Node])
    requires { length (written_nodes default.now (nodes_view nodes.now)) ≤ out.old.spare }
    ensures { out.new.items ≡ out.old.items ++ written_nodes default.now (nodes_view nodes.now) }
{
    for node in nodes {
        put_node(out, default, node);
    }
}

// Adds a start tag with its end.
fn put_start_tag(out: &mut Bytes, default: &str, ns: &str, name: &str, attrs: &[Attr])
    requires { length (written_start_tag default.now ns.now name.now attrs.now) ≤ out.old.spare }
    ensures { out.new.items ≡ out.old.items ++ written_start_tag default.now ns.now name.now attrs.now }
{
    put_start(out, default, ns, name, attrs);
    out.append_reserved(b">");
}

/// Writes nodes behind what is there, as they stand inside an element where this default namespace is in force. Inside a
/// top-level element of `jabber:client` it is that namespace.
///
/// The memory is reserved before the first byte is written: a refusal leaves the bytes as they were. The stack used
/// grows with the depth of the nodes.
pub fn write_nodes(out: &mut Bytes, default: &str, nodes: &[Node]) -> Result<(), NoMemory>
    ensures ok { OnOk result (out.new.items ≡ out.old.items ++ written_nodes default.now (nodes_view nodes.now)) }
    ensures err { OnErr result (out.new.items ≡ out.old.items) }
{
    make_room(out, all_len(default, nodes))?;
    put_all(out, default, nodes);
    Ok(())
}

/// Writes the start tag of an element that has something inside behind what is there, where this default namespace is in
/// force: at the top it is `jabber:client` (XML 1.0, section 3.1). By the law `elements_are_written_in_parts` the tag,
/// what is inside and the end tag are what `write` adds. A refusal leaves the bytes as they were.
pub fn write_start(
    out: &mut Bytes,
    default: &str,
    ns: &str,
    name: &str,
    attrs: &[Attr],
) -> Result<(), NoMemory>
    ensures ok { OnOk result (out.new.items ≡ out.old.items ++ written_start_tag default.now ns.now name.now attrs.now) }
    ensures err { OnErr result (out.new.items ≡ out.old.items) }
{
    let len = start_len(default, ns, name, attrs).saturating_add(1);
    make_room(out, len)?;
    put_start_tag(out, default, ns, name, attrs);
    Ok(())
}

/// Writes the end tag of an element behind what is there. A refusal leaves the bytes as they were.
pub fn write_end(out: &mut Bytes, ns: &str, name: &str) -> Result<(), NoMemory>
    ensures ok { OnOk result (out.new.items ≡ out.old.items ++ written_end_tag ns.now name.now) }
    ensures err { OnErr result (out.new.items ≡ out.old.items) }
{
    make_room(out, end_len(ns, name))?;
    put_end(out, ns, name);
    Ok(())
}
