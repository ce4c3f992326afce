ghost use Rattle.std.specs.Prelude.{◌≡◌, ℕ, List, All, IsSome, Some};
ghost use Rattle.std.specs.Option.{option_map};
ghost use Rattle.xml_trees.specs.Attributes.{Attribute, IsAttrsOf, found, sorted_attributes};
ghost use Rattle.xml_trees.specs.Readers.{attr_of, child_of, is_named, text_of};
ghost use Rattle.xml_trees.specs.Tidied.{tidied, tidied_nodes};
ghost use Rattle.xml_trees.specs.Trees.{AreTidy, Elem, IsTree, Nodes, depth, nodes_of};

/// A law: what is tidied keeps the rule of a tree, and what keeps it stays as it is. So an element that keeps the rule is
/// its own tree, and of two trees the elements differ.
pub fn tidy_element_stays()
    ensures tree { (e : Elem) → IsTree (tidied e) }
    ensures stays { (e : Elem) → IsTree e → tidied e ≡ e }
    ensures nodes { (ks : Nodes) → AreTidy (tidied_nodes ks) }
    ensures nodes_stay { (ks : Nodes) → AreTidy ks → tidied_nodes ks ≡ ks }
{}

/// A law: of an element and of its tree the same is read. Namespace and name, each attribute and the text stay, and the
/// child that is found is the tree of the child that was found. Nor does the depth change.
pub fn tidy_element_reads_the_same()
    ensures named { (ns name : List ℕ) (e : Elem) → is_named ns name (tidied e) ≡ is_named ns name e }
    ensures attr { (ns name : List ℕ) (e : Elem) → attr_of ns name (tidied e) ≡ attr_of ns name e }
    ensures child { (ns name : List ℕ) (e : Elem) → child_of ns name (tidied e) ≡ option_map tidied (child_of ns name e) }
    ensures text { (e : Elem) → text_of (nodes_of (tidied e)) ≡ text_of (nodes_of e) }
    ensures depth { (e : Elem) → depth (tidied e) ≡ depth e }
{}

/// A law: the attributes of a tidied element ascend by their names, and under each namespace and name stands the first
/// that was given with it. Each that is kept is the first of its name among those given, and each name that was given is
/// there. No other list of attributes keeps that.
pub fn first_attributes_are_kept()
    ensures kept { (given : List Attribute) → IsAttrsOf given (sorted_attributes given) }
    ensures only { (given kept : List Attribute) → IsAttrsOf given kept → kept ≡ sorted_attributes given }
    ensures first { (given : List Attribute) → All (λ a. found a.ns a.name given ≡ Some a) (sorted_attributes given) }
    ensures there { (given : List Attribute) → All (λ a. IsSome (found a.ns a.name (sorted_attributes given))) given }
{}
