//! Laws of the grammar of streams (XML 1.0, section 3; Namespaces in XML 1.0; RFC 6120, section 4).
ghost use Rattle.std.specs.Prelude.{◌≡◌, ◌++◌, ℕ, [], List};
ghost use Rattle.law_xml.specs.Spells.{IsSameItem, Spells, SpellsItem};
ghost use Rattle.xml_trees.specs.Trees.{Elem};
ghost use Rattle.xml_framer.specs.declared.items.Item.{Item};
ghost use Rattle.xml_names.specs.Scopes.{Scope};

/// A law: no spelling of an item begins the spelling of another, and each list of bytes spells one item at most, in each
/// scope behind a header that was read. Headers that differ in their place alone are one item.
pub fn spellings_are_unambiguous()
    ensures item { (scope : Scope) (name a b more : List ℕ) (i j : Item) → SpellsItem scope name a i → SpellsItem scope name b j
        → b ≡ a ++ more → (more ≡ []) × IsSameItem i j }
    ensures element { (scope : Scope) (a b more : List ℕ) (e f : Elem) → Spells scope a e → Spells scope b f → b ≡ a ++ more
        → (more ≡ []) × (e ≡ f) }
{}
