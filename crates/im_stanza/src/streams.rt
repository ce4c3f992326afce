//! The errors of streams (RFC 6120, section 4.9).
ghost use Rattle.std.specs.Prelude.{◌≡◌, IfOk};
ghost use Rattle.std.specs.Option.{option_copied};
ghost use Rattle.xml_trees.specs.Tidied.{tidied};
ghost use Rattle.xml_trees.specs.Trees.{nodes_of};
ghost use Rattle.im_stanza.specs.Conditions.{condition_in};
ghost use Rattle.im_stanza.specs.Errors.{stream_error_elem};
ghost use Rattle.im_stanza.specs.Names.{stream_errors_ns};

use crate::conditions::condition_in;
use crate::names::{STREAM_ERRORS, STREAMS};
use base_io::NoMemory;
use std::alloc::Global;
use xml_trees::{Element, Tree};

/// A stream error with this condition, and behind it what an application adds (RFC 6120, section 4.9.2).
pub fn stream_error(alloc: Global, condition: &str, extra: Option<Tree>) -> Result<Tree, NoMemory>
    ensures { IfOk result (λ tree. tree ≡ tidied (stream_error_elem condition.now extra)) }
{
    let mut error = Element::from_strs(alloc, STREAMS, "error")?;
    error.push_child(Element::from_strs(alloc, STREAM_ERRORS, condition)?)?;
    match extra {
        None => {}
        Some(tree) => error.push_child(tree.into_element())?,
    }
    Tree::of(alloc, error)
}

/// The condition of a stream error: the name of its first child in the namespace of such conditions other than `text`
/// (RFC 6120, sections 4.9.2 and 4.9.3). `None` exactly where there is none. It takes no memory.
pub fn stream_condition(tree: &Tree) -> Option<&str>
    ensures { option_copied result ≡ condition_in stream_errors_ns (nodes_of tree.now) }
{
    condition_in(&tree.element().children, STREAM_ERRORS)
}
