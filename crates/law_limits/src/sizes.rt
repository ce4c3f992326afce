//! The laws.
ghost use Rattle.std.specs.Prelude.{◌≡◌, ◌≤◌, ◌<◌, ◌+◌, ◌*◌, ◌^◌, ℕ, List, ◌++◌, true, Some, Ok, length};
ghost use Rattle.std.specs.Fmt.{decimal};
ghost use Rattle.std.specs.List.{list_all};
ghost use Rattle.base_lemmas.specs.Hexadecimal.{hex16_of};
ghost use Rattle.im_jid.specs.Forms.{domain_form, local_form, resource_form};
ghost use Rattle.im_jid.specs.Normal.{normal};
ghost use Rattle.law_limits.specs.Elements.{are_local, attributes_size, element_size, nodes_size};
ghost use Rattle.law_limits.specs.Texts.{Said, is_printable, value_size, text_size};
ghost use Rattle.xml_tokens.specs.Lines.{IsCharacters};
ghost use Rattle.xml_trees.specs.Attributes.{Attribute};
ghost use Rattle.xml_trees.specs.Readers.{attr_of, text_of};
ghost use Rattle.xml_trees.specs.Trees.{Elem, Nodes, child, element, joined, namespace_of, nodes_of};
ghost use Rattle.xml_writer.specs.Canon.{default_inside};

/// A law: a byte takes at most 6 as a value is written, and no more in content; what two texts take adds up. Texts of
/// XML's characters, put together, are such a text, and so are printable ASCII, and numbers.
pub fn texts_are_put_together()
    ensures value { (t : List ℕ) → value_size t ≤ 6 * length t }
    ensures text { (t : List ℕ) → text_size t ≤ value_size t }
    ensures joined { (s t : List ℕ) → value_size (s ++ t) ≡ value_size s + value_size t }
    ensures said { (m n most : ℕ) (s t : List ℕ) → Said m s → Said n t → m + n ≤ most → Said most (s ++ t) }
    ensures printable { (most : ℕ) (t : List ℕ) → list_all is_printable t ≡ true → 6 * length t ≤ most → Said most t }
    ensures hexadecimal { (n : ℕ) → Said 96 (hex16_of n) }
    ensures decimal { (n : ℕ) → n < 2 ^ 64 → Said 120 (decimal n) }
{}

/// A law: how long an element is as it is written, from above and from below. What it contains adds up.
pub fn elements_are_put_together()
    ensures up { (default ns name : List ℕ) (attrs : List Attribute) (kids : Nodes) → are_local attrs ≡ true
        → element_size default (element ns name attrs kids) ≤ 40 + 2 * length name + value_size ns + attributes_size attrs + nodes_size (default_inside default ns) kids }
    ensures down { (default ns name : List ℕ) (e : Elem) (v : List ℕ) → attr_of ns name e ≡ Some v
        → value_size v + nodes_size (default_inside default (namespace_of e)) (nodes_of e) ≤ element_size default e }
    ensures child { (default : List ℕ) (e : Elem) (rest : Nodes) → nodes_size default (child e rest) ≡ element_size default e + nodes_size default rest }
    ensures joined { (default : List ℕ) (ks more : Nodes) → nodes_size default (joined ks more) ≡ nodes_size default ks + nodes_size default more }
    ensures text { (default : List ℕ) (ks : Nodes) → text_size (text_of ks) ≤ nodes_size default ks }
{}

/// A law: an address in normal form, and each part of one, is a text of XML's characters where the text that it is made
/// of is one. A part has at most 1,023 bytes, and so takes at most 6,138 as a value is written. (The rule of a resource
/// alone would allow U+FFFE and U+FFFF, which are no characters of XML's: no normal form C has them where the text has not.)
pub fn addresses_are_short()
    ensures local { (given part : List ℕ) → local_form given ≡ Ok part → Said 6138 part }
    ensures domain { (given part : List ℕ) → domain_form given ≡ Ok part → Said 6138 part }
    ensures resource { (given part : List ℕ) → IsCharacters given → resource_form given ≡ Ok part → Said 6138 part }
    ensures whole { (text out : List ℕ) → IsCharacters text → normal text ≡ Ok out → Said 18426 out }
{}
