//! The lines that tell of a stream's items and of what is wrong with it.
ghost use Rattle.std.specs.Prelude.{◌≡◌, ◌++◌, Some, None, IfOk, OnOk};
ghost use Rattle.xml_check.specs.Lines;
ghost use Rattle.xml_check.specs.Lines.{end_line, fault_line, item_line, is_of_client, strange_at, truncated_line};

use base_io::{Bytes, NoMemory};
use std::alloc::Global;
use xml_framer::{Item, Why};
use xml_names::Header;
use xml_writer::{write_footer, write_growing, write_header};

/// The namespace of a header (RFC 6120, section 4.8.1).
const STREAMS_NAMESPACE: &str = "http://etherx.jabber.org/streams";

/// The content namespace between a client and its server (RFC 6120, section 4.8.2).
const CLIENT_NAMESPACE: &str = "jabber:client";

/// Adds an item as it is written, and a line feed.
pub(crate) fn append_item(out: &mut Bytes, item: &Item) -> Result<(), NoMemory>
    ensures { OnOk result (out.new.items ≡ out.old.items ++ item_line item.now) }
{
    match item {
        Item::Header { at: _, header } => write_header(header, out)?,
        Item::Element(tree) => write_growing(tree, out)?,
        Item::Footer => write_footer(out)?,
    }
    out.push(b'\n')
}

// Whether a header opens a stream between a client and its server.
#[tactic(auto, unfolding(crate::specs::Lines::is_of_client))]
fn is_of_client(header: &Header) -> bool
    ensures { result ≡ is_of_client header.now }
{
    header.ns.as_str() == STREAMS_NAMESPACE
        && header.name.as_str() == "stream"
        && header.content.as_str() == CLIENT_NAMESPACE
}

/// The place of a header that opens no stream between a client and its server.
pub(crate) fn strange_at(item: &Item) -> Option<u64>
    ensures { result ≡ strange_at item.now }
{
    match item {
        Item::Header { at, header } => {
            if is_of_client(header) {
                None
            } else {
                Some(*at)
            }
        }
        Item::Element(_) | Item::Footer => None,
    }
}

/// The name of what is wrong.
pub(crate) fn why_name(why: Why) -> &'static str
    ensures { result.now ≡ Lines.why_name why }
{
    match why {
        Why::Restricted => "Restricted",
        Why::NotWellFormed => "NotWellFormed",
        Why::Encoding => "Encoding",
        Why::TooLong => "TooLong",
        Why::TooDeep => "TooDeep",
        Why::TooManyAttributes => "TooManyAttributes",
        Why::LongNamespace => "LongNamespace",
    }
}

/// Adds the line of a fault.
pub(crate) fn append_fault(
    alloc: Global,
    out: &mut Bytes,
    at: u64,
    name: &str,
) -> Result<(), NoMemory>
    ensures { OnOk result (out.new.items ≡ out.old.items ++ fault_line at name.now) }
{
    out.append(b"fault ")?;
    out.append(at.to_string(alloc)?.as_bytes())?;
    out.append(b" ")?;
    out.append(name.as_bytes())?;
    out.append(b"\n")
}

/// Adds the line of an item that is unfinished.
pub(crate) fn append_truncated(alloc: Global, out: &mut Bytes, at: u64) -> Result<(), NoMemory>
    ensures { OnOk result (out.new.items ≡ out.old.items ++ truncated_line at) }
{
    out.append(b"truncated ")?;
    out.append(at.to_string(alloc)?.as_bytes())?;
    out.append(b"\n")
}

/// Adds the line of a stream in which nothing is wrong.
pub(crate) fn append_end(out: &mut Bytes) -> Result<(), NoMemory>
    ensures { OnOk result (out.new.items ≡ out.old.items ++ end_line) }
{
    out.append(b"end\n")
}
