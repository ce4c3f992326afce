//! What a client puts to log in.
ghost use Rattle.std.specs.Prelude.{◌≡◌, IfOk, codes};
ghost use Rattle.cl_login.specs.LoginRows.{client_header};
ghost use Rattle.xml_writer.specs.Items.{Opening, Whole, written_item};
ghost use Rattle.im_login.specs.Sasl.{auth_of, carrier};
ghost use Rattle.xml_writer.specs.Canon.{canon};

use base_io::{Bytes, NoMemory, Text};
use im_login::{Auth, Response, SCRAM_SHA_256};
use im_stanza::{CLIENT, STREAMS};
use std::alloc::Global;
use xml_names::Header;
use xml_trees::Tree;
use xml_writer::{write, write_header};

// The header of a client (RFC 6120, section 4.7).
#[tactic(auto, unfolding(im_stanza::specs::Names::client_ns, im_stanza::specs::Names::streams_ns))]
fn client_header(alloc: Global, domain: &str) -> Result<Header, NoMemory>
    ensures { IfOk result (λ header. header ≡ client_header domain.now) }
{
    Ok(Header {
        ns: Text::from_str(alloc, STREAMS)?,
        name: Text::from_str(alloc, "stream")?,
        content: Text::from_str(alloc, CLIENT)?,
        to: Some(Text::from_str(alloc, domain)?),
        from: None,
        id: None,
        version: Some(Text::from_str(alloc, "1.0")?),
        lang: None,
    })
}

/// The bytes of a client's header, with the declaration before it.
pub(crate) fn header_bytes(alloc: Global, domain: &str) -> Result<Bytes, NoMemory>
    ensures { IfOk result (λ bytes. bytes.items ≡ written_item (Opening (client_header domain.now))) }
{
    let header = client_header(alloc, domain)?;
    let mut bytes = Bytes::from_slice(alloc, b"<?xml version='1.0'?>")?;
    write_header(&header, &mut bytes)?;
    Ok(bytes)
}

// The bytes of an element.
fn element_bytes(alloc: Global, tree: &Tree) -> Result<Bytes, NoMemory>
    ensures { IfOk result (λ bytes. bytes.items ≡ canon tree.now) }
{
    let mut bytes = Bytes::new(alloc);
    write(tree, &mut bytes)?;
    Ok(bytes)
}

// The `auth` that begins SCRAM-SHA-256 with a message (RFC 6120, section 6.4.2).
fn auth_tree(alloc: Global, message: &[u8]) -> Result<Tree, NoMemory>
    ensures { IfOk result (λ tree. tree ≡ auth_of (codes "SCRAM-SHA-256") message.now) }
{
    let auth = Auth {
        mechanism: Text::from_str(alloc, SCRAM_SHA_256)?,
        payload: Bytes::from_slice(alloc, message)?,
    };
    auth.tree(alloc)
}

/// The bytes of the `auth` that begins SCRAM-SHA-256 with a message.
pub(crate) fn auth_bytes(alloc: Global, message: &[u8]) -> Result<Bytes, NoMemory>
    ensures { IfOk result (λ bytes. bytes.items ≡ written_item (Whole (auth_of (codes "SCRAM-SHA-256") message.now))) }
{
    let tree = auth_tree(alloc, message)?;
    element_bytes(alloc, &tree)
}

/// The bytes of the `response` with a message (RFC 6120, section 6.4.3).
pub(crate) fn response_bytes(alloc: Global, message: Bytes) -> Result<Bytes, NoMemory>
    ensures { IfOk result (λ bytes. bytes.items ≡ written_item (Whole (carrier (codes "response") message.items))) }
{
    let response = Response { payload: message };
    let tree = response.tree(alloc)?;
    element_bytes(alloc, &tree)
}
