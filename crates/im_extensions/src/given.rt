//! What a server and a client ask of a message's payload: ids (XEP-0359) and whether it is private (XEP-0280, section 6).
ghost use Rattle.std.specs.Prelude.{◌≡◌, IfOk};
ghost use Rattle.std.specs.Option.{option_copied};
ghost use Rattle.im_extensions.specs.Given.{is_given_by, is_private, origin_of};
ghost use Rattle.xml_trees.specs.Views.{elem_view, nodes_view};

use base_io::NoMemory;
use im_jid::spells_account;
use im_payload::{CARBONS, STANZA_IDS};
use std::alloc::Global;
use xml_trees::{Element, Node, find_child};

/// Whether an element is a `stanza-id`, with or without an id, that a client may take for one that this account gave: what
/// stands in `by` before the first `/` is a spelling of the account's bare address, which is given in normal form. It is
/// refused for want of memory alone.
pub fn is_given_by(alloc: Global, element: &Element, account: &str) -> Result<bool, NoMemory>
    ensures { IfOk result (λ given. given ≡ is_given_by account.now (elem_view element.now)) }
{
    if !element.is(STANZA_IDS, "stanza-id") {
        return Ok(false);
    }
    spells_account(alloc, account, element.attr("", "by").unwrap_or(""))
}

/// The id of the first `origin-id`. `None` where there is none, and where it has no id.
pub fn origin_of(payload: &[Node]) -> Option<&str>
    ensures { option_copied result ≡ origin_of (nodes_view payload.now) }
{
    match find_child(payload, STANZA_IDS, "origin-id") {
        None => None,
        Some(element) => element.attr("", "id"),
    }
}

/// Whether there is a `private`.
pub fn is_private(payload: &[Node]) -> bool
    ensures { result ≡ is_private (nodes_view payload.now) }
{
    find_child(payload, CARBONS, "private").is_some()
}
