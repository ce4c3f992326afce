//! The answers of service discovery (XEP-0030, sections 3.1 and 4.1).
ghost use Rattle.std.specs.Prelude.{◌≡◌, [], ◌∷◌, IfOk, OnErr, OnOk, codes, map};
ghost use Rattle.im_login.specs.Discovery.{account, disco_info_elem, disco_items_elem, feature_elem, feature_elems, identity_elem, identity_elems, server, server_features, shown, word};
ghost use Rattle.xml_trees.specs.Trees.{with_nodes};
ghost use Rattle.xml_trees.specs.Views.{elem_view};

use base_io::NoMemory;
use im_payload::{
    ARCHIVE, CARBONS, DISCO_INFO, DISCO_ITEMS, PINGS, STANZA_IDS, push_unless_empty, push_value,
};
use std::alloc::Global;
use xml_trees::{Element, Tree};

/// What an entity is: a category, and a type of it.
#[derive(Clone, Copy, Debug, PartialEq, Eq)]
pub struct Identity<'a> {
    pub category: &'a str,
    pub kind: &'a str,
}

/// The namespaces of what a server and its accounts can do, in the order in which they are told.
const SERVER_FEATURES: [&str; 6] = [DISCO_INFO, DISCO_ITEMS, CARBONS, ARCHIVE, PINGS, STANZA_IDS];

fn identity_element(alloc: Global, identity: &Identity<'_>) -> Result<Element, NoMemory>
    ensures { IfOk result (λ e. elem_view e ≡ identity_elem (shown identity.now)) }
{
    let mut element = Element::from_strs(alloc, DISCO_INFO, "identity")?;
    push_value(alloc, &mut element, "category", identity.category)?;
    push_value(alloc, &mut element, "type", identity.kind)?;
    Ok(element)
}

fn feature_element(alloc: Global, namespace: &str) -> Result<Element, NoMemory>
    ensures { IfOk result (λ e. elem_view e ≡ feature_elem namespace.now) }
{
    let mut element = Element::from_strs(alloc, DISCO_INFO, "feature")?;
    push_value(alloc, &mut element, "var", namespace)?;
    Ok(element)
}

// Adds identities behind what the element contains.
fn push_identities(
    alloc: Global,
    query: &mut Element,
    identities: &[Identity<'_>],
) -> Result<(), NoMemory>
    ensures { OnOk result (elem_view query.new ≡ with_nodes (elem_view query.old) (identity_elems (map shown identities.now))) }
{
    for identity in identities {
        let element = identity_element(alloc, identity)?;
        query.push_child(element)?;
    }
    Ok(())
}

// Adds features behind what the element contains.
fn push_features(alloc: Global, query: &mut Element, features: &[&str]) -> Result<(), NoMemory>
    ensures { OnOk result (elem_view query.new ≡ with_nodes (elem_view query.old) (feature_elems (map word features.now))) }
{
    for feature in features {
        let element = feature_element(alloc, feature)?;
        query.push_child(element)?;
    }
    Ok(())
}

/// What an entity is and can do: each identity, and the namespace of each feature, in the order in which they are given.
#[tactic(auto, using(crate::proofs::DiscoveryLaws::told_stays))]
pub fn disco_info_tree(
    alloc: Global,
    identities: &[Identity<'_>],
    features: &[&str],
) -> Result<Tree, NoMemory>
    ensures { IfOk result (λ tree. tree ≡ disco_info_elem (map shown identities.now) (map word features.now)) }
{
    let mut query = Element::from_strs(alloc, DISCO_INFO, "query")?;
    push_identities(alloc, &mut query, identities)?;
    push_features(alloc, &mut query, features)?;
    Tree::of(alloc, query)
}

/// What a server says of itself.
pub fn server_info(alloc: Global) -> Result<Tree, NoMemory>
    ensures { IfOk result (λ tree. tree ≡ disco_info_elem (server ∷ []) server_features) }
{
    let identity = Identity {
        category: "server",
        kind: "im",
    };
    disco_info_tree(alloc, &[identity], &SERVER_FEATURES)
}

/// What a server says of an account.
pub fn account_info(alloc: Global) -> Result<Tree, NoMemory>
    ensures { IfOk result (λ tree. tree ≡ disco_info_elem (account ∷ []) server_features) }
{
    let identity = Identity {
        category: "account",
        kind: "registered",
    };
    disco_info_tree(alloc, &[identity], &SERVER_FEATURES)
}

/// What a server says of the items of a node that was asked for: there are none. The node is left out where it is empty.
#[tactic(auto, using(crate::proofs::DiscoveryLaws::items_stay))]
pub fn disco_items_tree(alloc: Global, node: &str) -> Result<Tree, NoMemory>
    ensures { IfOk result (λ tree. tree ≡ disco_items_elem node.now) }
{
    let mut query = Element::from_strs(alloc, DISCO_ITEMS, "query")?;
    push_unless_empty(alloc, &mut query, "node", node)?;
    Tree::of(alloc, query)
}
