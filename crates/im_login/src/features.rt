//! The features of a stream (RFC 6120, section 4.3.2).
ghost use Rattle.std.specs.Prelude.{◌≡◌, [], IfOk, OnErr, OnOk, codes};
ghost use Rattle.std.specs.List.{list_any};
ghost use Rattle.im_login.specs.Features.{child_where, features_elem, features_read, is_scram, mechanisms_elem, offers_scram};
ghost use Rattle.im_payload.specs.Bare.{bare};
ghost use Rattle.im_payload.specs.Names.{sasl};
ghost use Rattle.xml_trees.specs.Readers.{child_of, elements_of};
ghost use Rattle.xml_trees.specs.Trees.{with_nodes};
ghost use Rattle.xml_trees.specs.Views.{elem_view, nodes_view};

use crate::texts::is_text;
use base_io::{NoMemory, Text};
use im_payload::{BINDING, ExtFault, MANAGEMENT, SASL, text_element};
use im_stanza::STREAMS;
use std::alloc::Global;
use xml_trees::{Element, Node, Tree};

/// The name of the mechanism of SASL that both ends know (RFC 7677, section 4).
pub const SCRAM_SHA_256: &str = "SCRAM-SHA-256";

/// What a server offers at the beginning of a stream, of what both ends know.
#[derive(Clone, Copy, Debug, PartialEq, Eq)]
pub struct Features {
    /// The mechanism SCRAM-SHA-256 (RFC 6120, section 6.4.1).
    pub scram_sha_256: bool,
    /// Resource binding (RFC 6120, section 7.4).
    pub bind: bool,
    /// Stream management (XEP-0198, section 3).
    pub stream_management: bool,
}

// Whether an element is the mechanism SCRAM-SHA-256.
#[tactic(auto, unfolding(im_payload::specs::Names::sasl))]
fn is_scram(element: &Element) -> bool
    ensures { result ≡ is_scram (elem_view element.now) }
{
    element.is(SASL, "mechanism") && is_text(&element.children, SCRAM_SHA_256)
}

// Whether it is among nodes.
fn has_scram(nodes: &[Node]) -> bool
    ensures { result ≡ list_any is_scram (elements_of (nodes_view nodes.now)) }
{
    for node in nodes {
        if let Node::Child(element) = node
            && is_scram(element)
        {
            return true;
        }
    }
    false
}

// Whether it is among the mechanisms that features name.
#[tactic(auto, unfolding(im_payload::specs::Names::sasl))]
fn offers_scram(features: &Element) -> bool
    ensures { result ≡ offers_scram (child_of sasl (codes "mechanisms") (elem_view features.now)) }
{
    match features.child(SASL, "mechanisms") {
        None => false,
        Some(mechanisms) => has_scram(&mechanisms.children),
    }
}

// The list of mechanisms that has SCRAM-SHA-256 alone.
#[tactic(auto, unfolding(im_payload::specs::Names::sasl))]
fn mechanisms_element(alloc: Global) -> Result<Element, NoMemory>
    ensures { IfOk result (λ e. elem_view e ≡ mechanisms_elem) }
{
    let name = Text::from_str(alloc, SCRAM_SHA_256)?;
    let mechanism = text_element(alloc, SASL, "mechanism", name)?;
    let mut mechanisms = Element::from_strs(alloc, SASL, "mechanisms")?;
    mechanisms.push_child(mechanism)?;
    Ok(mechanisms)
}

// Adds that list, where SCRAM-SHA-256 is offered.
fn push_mechanisms(alloc: Global, features: &mut Element, offered: bool) -> Result<(), NoMemory>
    ensures ok { OnOk result (elem_view features.new ≡ with_nodes (elem_view features.old) (child_where offered mechanisms_elem)) }
    ensures err { OnErr result (elem_view features.new ≡ elem_view features.old) }
{
    if !offered {
        return Ok(());
    }
    let mechanisms = mechanisms_element(alloc)?;
    features.push_child(mechanisms)
}

// Adds a feature that is its name, where it is offered.
fn push_feature(
    alloc: Global,
    features: &mut Element,
    ns: &str,
    name: &str,
    offered: bool,
) -> Result<(), NoMemory>
    ensures ok { OnOk result (elem_view features.new ≡ with_nodes (elem_view features.old) (child_where offered (bare ns.now name.now))) }
    ensures err { OnErr result (elem_view features.new ≡ elem_view features.old) }
{
    if !offered {
        return Ok(());
    }
    let feature = Element::from_strs(alloc, ns, name)?;
    features.push_child(feature)
}

impl Features {
    /// What is offered to a client that hasn't logged in.
    pub const BEFORE_SASL: Features = Features {
        scram_sha_256: true,
        bind: false,
        stream_management: false,
    };

    /// What is offered to a client that has logged in.
    pub const AFTER_SASL: Features = Features {
        scram_sha_256: false,
        bind: true,
        stream_management: true,
    };

    /// Reads a `features` of the namespace of streams: whether SCRAM-SHA-256 is the text directly in a `mechanism` of its
    /// first `mechanisms`, and whether it has a `bind` and an `sm`, whatever these have and contain. What else it offers is
    /// left out. `NotThis` where the tree is another element. It takes no memory.
    pub fn read(tree: &Tree) -> Result<Features, ExtFault>
        ensures { result ≡ features_read tree.now }
    {
        Features::read_element(tree.element())
    }

    /// The same of an element, which need not keep the rule of a tree.
    pub fn read_element(element: &Element) -> Result<Features, ExtFault>
        ensures { result ≡ features_read (elem_view element.now) }
    {
        if !element.is(STREAMS, "features") {
            return Err(ExtFault::NotThis);
        }
        Ok(Features {
            scram_sha_256: offers_scram(element),
            bind: element.child(BINDING, "bind").is_some(),
            stream_management: element.child(MANAGEMENT, "sm").is_some(),
        })
    }

    /// The element as a tree: `mechanisms`, `bind` and `sm` in this order, each where it is offered.
    #[tactic(auto, using(crate::proofs::FeatureLaws::features_stay))]
    pub fn tree(&self, alloc: Global) -> Result<Tree, NoMemory>
        ensures { IfOk result (λ tree. tree ≡ features_elem self.now) }
    {
        let mut features = Element::from_strs(alloc, STREAMS, "features")?;
        push_mechanisms(alloc, &mut features, self.scram_sha_256)?;
        push_feature(alloc, &mut features, BINDING, "bind", self.bind)?;
        push_feature(
            alloc,
            &mut features,
            MANAGEMENT,
            "sm",
            self.stream_management,
        )?;
        Tree::of(alloc, features)
    }
}
