//! What answers a stanza with an error (RFC 6120, section 8.3.1).
ghost use Rattle.std.specs.Prelude.{◌≡◌, None, Some, IfOk, codes};
ghost use Rattle.std.specs.Option.{option_copied};
ghost use Rattle.im_stanza.specs.Answering.{bounce_elem, iq_error_elem, presence_bounce_elem};
ghost use Rattle.im_stanza.specs.Errors.{error_elem};
ghost use Rattle.im_stanza.specs.Names.{client_ns};
ghost use Rattle.im_stanza.specs.Written.{attrs_written, unless_empty};
ghost use Rattle.xml_trees.specs.Trees.{child, element, no_nodes};
ghost use Rattle.xml_trees.specs.Tidied.{tidied};
ghost use Rattle.xml_trees.specs.Views.{nodes_view};

use crate::elements::{StanzaAttrs, stanza_element, unless_empty};
use crate::errors::{StanzaError, error_element};
use crate::kinds::IqKind;
use base_io::NoMemory;
use std::alloc::Global;
use xml_trees::{Node, Nodes, Tree};

// The child `error` alone.
fn error_nodes(alloc: Global, error: &StanzaError) -> Result<Nodes, NoMemory>
    ensures { IfOk result (λ nodes. nodes_view nodes.items ≡ child (error_elem error.now) no_nodes) }
{
    let child = error_element(alloc, error)?;
    let mut nodes = Nodes::new(alloc);
    nodes.push(Node::Child(child))?;
    Ok(nodes)
}

// The stanza of this name that answers one with an error.
fn returned<'a>(
    alloc: Global,
    name: &str,
    from: &'a str,
    id: &'a str,
    error: &StanzaError,
) -> Result<Tree, NoMemory>
    ensures { IfOk result (λ tree. tree ≡ tidied (element client_ns name.now (attrs_written (Some from.now) (unless_empty id.now) None (Some (codes "error")) None) (child (error_elem error.now) no_nodes))) }
{
    let payload = error_nodes(alloc, error)?;
    let attrs = StanzaAttrs {
        from: Some(from),
        id: unless_empty(id),
        to: None,
        kind: Some("error"),
        lang: None,
    };
    let element = stanza_element(alloc, name, &attrs, payload)?;
    Tree::of(alloc, element)
}

/// The message that answers a message with an error. `from` is what that message had as `to`, which may be no address, and
/// `id` its id, which is left out where it is empty. It has no `to`.
pub fn bounce<'a>(
    alloc: Global,
    from: &'a str,
    id: &'a str,
    error: &StanzaError,
) -> Result<Tree, NoMemory>
    ensures { IfOk result (λ tree. tree ≡ tidied (bounce_elem from.now id.now error.now)) }
{
    returned(alloc, "message", from, id, error)
}

/// The presence that answers a presence with an error. `from` is the address that this had as `to`, and `id` its id, which
/// is left out where it is empty. It has no `to`, and contains nothing but the error.
pub fn presence_bounce<'a>(
    alloc: Global,
    from: &'a str,
    id: &'a str,
    error: &StanzaError,
) -> Result<Tree, NoMemory>
    ensures { IfOk result (λ tree. tree ≡ tidied (presence_bounce_elem from.now id.now error.now)) }
{
    returned(alloc, "presence", from, id, error)
}

/// The `iq` that answers an `iq` with an error. `from` is what that `iq` had as `to`, which may be no address, where it is
/// to be told, `to` is the address of the one who asked, where that is to be told, and `id` is the id of the `iq` (RFC
/// 6120, section 8.2.3).
pub fn iq_error<'a>(
    alloc: Global,
    from: Option<&'a str>,
    to: Option<&'a str>,
    id: &'a str,
    error: &StanzaError,
) -> Result<Tree, NoMemory>
    ensures { IfOk result (λ tree. tree ≡ tidied (iq_error_elem (option_copied from.entry) (option_copied to.entry) id.now error.now)) }
{
    let payload = error_nodes(alloc, error)?;
    let attrs = StanzaAttrs {
        from,
        id: Some(id),
        to,
        kind: Some(IqKind::Error.text()),
        lang: None,
    };
    let element = stanza_element(alloc, "iq", &attrs, payload)?;
    Tree::of(alloc, element)
}
