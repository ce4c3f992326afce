//! The conditions of errors (RFC 6120, sections 4.9.3 and 8.3.3).
ghost use Rattle.std.specs.Prelude.{◌≡◌, ◌∷◌, IfOk};
ghost use Rattle.std.specs.Option.{option_copied};
ghost use Rattle.xml_trees.specs.Views.{elem_view, nodes_view};
ghost use Rattle.im_stanza.specs.Conditions.{condition_in, condition_name, condition_named, is_condition};

use base_io::{Copied, NoMemory, Text};
use std::alloc::Global;
use xml_trees::{Element, Node};

/// What is wrong with a stanza (RFC 6120, section 8.3.3). `Other` is any condition that has no variant of its own. Readers
/// never answer `Other` of a name that has a variant.
#[derive(Drop, Debug)]
pub enum Condition {
    BadRequest,
    FeatureNotImplemented,
    ItemNotFound,
    JidMalformed,
    RemoteServerNotFound,
    ResourceConstraint,
    ServiceUnavailable,
    UnexpectedRequest,
    Other(Text),
}

impl Condition {
    /// The name of the condition's element.
    pub fn name(&self) -> &str
        ensures { result.now ≡ condition_name self.now }
    {
        match self {
            Condition::BadRequest => "bad-request",
            Condition::FeatureNotImplemented => "feature-not-implemented",
            Condition::ItemNotFound => "item-not-found",
            Condition::JidMalformed => "jid-malformed",
            Condition::RemoteServerNotFound => "remote-server-not-found",
            Condition::ResourceConstraint => "resource-constraint",
            Condition::ServiceUnavailable => "service-unavailable",
            Condition::UnexpectedRequest => "unexpected-request",
            Condition::Other(name) => name.as_str(),
        }
    }

    /// The condition with this name. It takes memory where the condition has no variant of its own.
    pub fn named(alloc: Global, name: &str) -> Result<Condition, NoMemory>
        ensures { IfOk result (λ condition. condition ≡ condition_named name.now) }
    {
        if name == "bad-request" {
            Ok(Condition::BadRequest)
        } else if name == "feature-not-implemented" {
            Ok(Condition::FeatureNotImplemented)
        } else if name == "item-not-found" {
            Ok(Condition::ItemNotFound)
        } else if name == "jid-malformed" {
            Ok(Condition::JidMalformed)
        } else if name == "remote-server-not-found" {
            Ok(Condition::RemoteServerNotFound)
        } else if name == "resource-constraint" {
            Ok(Condition::ResourceConstraint)
        } else if name == "service-unavailable" {
            Ok(Condition::ServiceUnavailable)
        } else if name == "unexpected-request" {
            Ok(Condition::UnexpectedRequest)
        } else {
            Ok(Condition::Other(Text::from_str(alloc, name)?))
        }
    }

    /// An equal condition, in memory of its own.
    pub fn copy(&self, alloc: Global) -> Result<Condition, NoMemory>
        ensures { IfOk result (λ copy. copy ≡ self.now) }
    {
        Ok(match self {
            Condition::BadRequest => Condition::BadRequest,
            Condition::FeatureNotImplemented => Condition::FeatureNotImplemented,
            Condition::ItemNotFound => Condition::ItemNotFound,
            Condition::JidMalformed => Condition::JidMalformed,
            Condition::RemoteServerNotFound => Condition::RemoteServerNotFound,
            Condition::ResourceConstraint => Condition::ResourceConstraint,
            Condition::ServiceUnavailable => Condition::ServiceUnavailable,
            Condition::UnexpectedRequest => Condition::UnexpectedRequest,
            Condition::Other(name) => Condition::Other(name.copied(alloc)?),
        })
    }
}

/// The name of the first of these elements that names a condition in this namespace: any element of it other than
/// `text`. `None` exactly where there is none. It takes no memory.
pub fn condition_in<'a>(nodes: &'a [Node], ns: &str) -> Option<&'a str>
    ensures { option_copied result ≡ condition_in ns.now (nodes_view nodes.now) }
{
    for node in nodes {
        if let Node::Child(element) = node
            && is_condition(element, ns)
        {
            return Some(element.name.as_str());
        }
    }
    None
}

// Whether the element names a condition in this namespace.
fn is_condition(element: &Element, ns: &str) -> bool
    ensures { result ≡ is_condition ns.now (elem_view element.now) }
{
    element.ns.as_str() == ns && element.name.as_str() != "text"
}
