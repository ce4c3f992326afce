//! What the parts of an element as they are written say of the whole.
ghost use Rattle.std.specs.Prelude.{◌≡◌, ℕ, List, false, ◌++◌};
ghost use Rattle.xml_writer.specs.Canon.{canon, client_namespace, default_inside, has_nothing, written, written_end_tag, written_nodes, written_start_tag};
ghost use Rattle.xml_trees.specs.Attributes.{Attribute};
ghost use Rattle.xml_trees.specs.Trees.{Nodes, element, joined};

/// A law: an element that has something inside is written as its start tag, what is inside where its own default
/// namespace is in force, and its end tag; so is a top-level element. Nodes one behind the other are written so.
pub fn elements_are_written_in_parts()
    ensures element { (default ns name : List ℕ) (attrs : List Attribute) (kids : Nodes) → has_nothing kids ≡ false
        → written default (element ns name attrs kids) ≡ written_start_tag default ns name attrs ++ (written_nodes (default_inside default ns) kids ++ written_end_tag ns name) }
    ensures top { (ns name : List ℕ) (attrs : List Attribute) (kids : Nodes) → has_nothing kids ≡ false
        → canon (element ns name attrs kids) ≡ written_start_tag client_namespace ns name attrs ++ (written_nodes (default_inside client_namespace ns) kids ++ written_end_tag ns name) }
    ensures nodes { (default : List ℕ) (front back : Nodes) → written_nodes default (joined front back) ≡ written_nodes default front ++ written_nodes default back }
{}
