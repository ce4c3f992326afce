//! The errors of stanzas (RFC 6120, section 8.3).
//!
//! An `iq` is answered with an error by `iq_error`, which has the addresses that it is given and always an id.
ghost use Rattle.std.specs.Prelude.{◌≡◌, ◌≢◌, Some, Ok, Err, codes, IfOk, IfErr};
ghost use Rattle.std.specs.Option.{option_copied};
ghost use Rattle.xml_trees.specs.Readers.{first_named};
ghost use Rattle.xml_trees.specs.Views.{elem_view, nodes_view};
ghost use Rattle.im_stanza.specs.Conditions.{condition_name};
ghost use Rattle.im_stanza.specs.Errors.{error_elem, error_in, error_kind, error_kind_named, error_type, stanza_error_of};
ghost use Rattle.im_stanza.specs.Names.{client_ns, stanza_errors_ns};

use crate::conditions::{Condition, condition_in};
use crate::fault::StanzaErrorFault;
use crate::names::{CLIENT, STANZA_ERRORS};
use base_io::NoMemory;
use std::alloc::Global;
use xml_trees::{Attr, Element, Node, Tree, find_child};

/// What the sender of a stanza that met an error may do (RFC 6120, section 8.3.2). A `type` that is absent or none of
/// these is `Cancel`.
#[derive(Clone, Copy, Debug, PartialEq, Eq)]
pub enum ErrorKind {
    Auth,
    Cancel,
    Continue,
    Modify,
    Wait,
}

/// The error in a stanza (RFC 6120, section 8.3), less its text and what an application adds.
#[derive(Drop, Debug)]
pub struct StanzaError {
    pub kind: ErrorKind,
    pub condition: Condition,
}

impl ErrorKind {
    /// The `type` that an error of this kind is written with.
    pub fn text(self) -> &'static str
        ensures { result.now ≡ error_type self }
    {
        match self {
            ErrorKind::Auth => "auth",
            ErrorKind::Cancel => "cancel",
            ErrorKind::Continue => "continue",
            ErrorKind::Modify => "modify",
            ErrorKind::Wait => "wait",
        }
    }
}

impl StanzaError {
    /// An equal error, in memory of its own.
    pub fn copy(&self, alloc: Global) -> Result<StanzaError, NoMemory>
        ensures { IfOk result (λ copy. copy ≡ self.now) }
    {
        Ok(StanzaError {
            kind: self.kind,
            condition: self.condition.copy(alloc)?,
        })
    }
}

// The kind of an error with this `type`.
fn error_kind(given: Option<&str>) -> ErrorKind
    ensures { result ≡ error_kind (option_copied given.entry) }
{
    match given {
        None => ErrorKind::Cancel,
        Some(name) => error_kind_named(name),
    }
}

fn error_kind_named(name: &str) -> ErrorKind
    ensures { result ≡ error_kind_named name.now }
{
    if name == "auth" {
        ErrorKind::Auth
    } else if name == "continue" {
        ErrorKind::Continue
    } else if name == "modify" {
        ErrorKind::Modify
    } else if name == "wait" {
        ErrorKind::Wait
    } else {
        ErrorKind::Cancel
    }
}

/// The error in a stanza: that of its first child `error`, with the condition that this child names first (RFC 6120
/// section 8.3.2). Each refusal but `NoMemory` comes exactly where the definition refuses so; `errors_are_read_as_stated`
/// says what that means.
pub fn stanza_error(alloc: Global, tree: &Tree) -> Result<StanzaError, StanzaErrorFault>
    ensures ok { IfOk result (λ error. stanza_error_of tree.now ≡ Ok error) }
    ensures refused { IfErr result (λ fault. fault ≢ StanzaErrorFault.NoMemory → stanza_error_of tree.now ≡ Err fault) }
{
    stanza_error_in(alloc, &tree.element().children)
}

/// The same of what a stanza contains.
pub fn stanza_error_in(alloc: Global, nodes: &[Node]) -> Result<StanzaError, StanzaErrorFault>
    ensures ok { IfOk result (λ error. error_in (first_named client_ns (codes "error") (nodes_view nodes.now)) ≡ Ok error) }
    ensures refused { IfErr result (λ fault. fault ≢ StanzaErrorFault.NoMemory → error_in (first_named client_ns (codes "error") (nodes_view nodes.now)) ≡ Err fault) }
{
    match find_child(nodes, CLIENT, "error") {
        None => Err(StanzaErrorFault::NoError),
        Some(error) => read_error(alloc, error),
    }
}

fn read_error(alloc: Global, error: &Element) -> Result<StanzaError, StanzaErrorFault>
    ensures ok { IfOk result (λ e. error_in (Some (elem_view error.now)) ≡ Ok e) }
    ensures refused { IfErr result (λ fault. fault ≢ StanzaErrorFault.NoMemory → error_in (Some (elem_view error.now)) ≡ Err fault) }
{
    match condition_in(&error.children, STANZA_ERRORS) {
        None => Err(StanzaErrorFault::NoError),
        Some(name) => Ok(StanzaError {
            kind: error_kind(error.attr("", "type")),
            condition: Condition::named(alloc, name)?,
        }),
    }
}

/// The element `error` of a stanza, as a child for it (RFC 6120, section 8.3.2).
pub fn error_element(alloc: Global, e: &StanzaError) -> Result<Element, NoMemory>
    ensures { IfOk result (λ element. elem_view element ≡ error_elem e.now) }
{
    let mut error = Element::from_strs(alloc, CLIENT, "error")?;
    error.push_attr(Attr::from_strs(alloc, "", "type", e.kind.text())?)?;
    error.push_child(Element::from_strs(alloc, STANZA_ERRORS, e.condition.name())?)?;
    Ok(error)
}
