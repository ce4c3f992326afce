//! The bodies of a message (RFC 6121, section 5.2.3).
ghost use Rattle.std.specs.Prelude.{◌≡◌, IfOk};
ghost use Rattle.im_messages.specs.Bodies.{bodies_of, body_of, is_body};
ghost use Rattle.xml_trees.specs.Views.{elem_view, nodes_view};

use base_io::{NoMemory, Text};
use im_stanza::{CLIENT, XML};
use mam_archive::{Bodies, Body};
use std::alloc::Global;
use xml_trees::{Element, Node};

/// The bodies in a message's payload, in order: each child `body` of `jabber:client`, with its own `xml:lang`, empty where
/// it has none, and the text directly in it. The language of the message isn't theirs.
pub fn bodies_of(alloc: Global, payload: &[Node]) -> Result<Bodies, NoMemory>
    ensures { IfOk result (λ bodies. bodies.items ≡ bodies_of (nodes_view payload.now)) }
{
    let mut bodies = Bodies::new(alloc);
    for node in payload {
        if let Node::Child(element) = node
            && is_body(element)
        {
            bodies.push(body_of(alloc, element)?)?;
        }
    }
    Ok(bodies)
}

// Whether the element is a body.
fn is_body(element: &Element) -> bool
    ensures { result ≡ is_body (elem_view element.now) }
{
    element.is(CLIENT, "body")
}

// The body that an element is.
fn body_of(alloc: Global, element: &Element) -> Result<Body, NoMemory>
    ensures { IfOk result (λ body. body ≡ body_of (elem_view element.now)) }
{
    let lang = element.attr(XML, "lang").unwrap_or("");
    Ok(Body {
        lang: Text::from_str(alloc, lang)?,
        text: element.text(alloc)?,
    })
}
