//! Laws of writing: what is written spells what it was made of (RFC 6120, section 4; XML 1.0, section 3).
ghost use Rattle.std.specs.Prelude.{◌≡◌, ℕ, [], List, Some, codes};
ghost use Rattle.std.specs.Option.{unwrap_or};
ghost use Rattle.xml_writer.specs.Canon.{canon, streams_namespace, written, written_footer, written_header};
ghost use Rattle.law_xml.specs.Plain.{IsPlain, IsPlainElement, IsPlainHeader};
ghost use Rattle.law_xml.specs.Spells.{Spells, SpellsFooter, SpellsHeader, SpellsTop, as_written, written_scope};
ghost use Rattle.xml_trees.specs.Trees.{Elem, IsTree};
ghost use Rattle.xml_names.specs.Scopes.{Scope, bound};
ghost use Rattle.xml_names.specs.declared.headers.Header.{Header};

/// A law: what is written for a plain tree spells that tree, in the grammar's words, in the scope of a header that was
/// written; and so in each scope in which the same default namespace is in force and the prefix `stream` is bound.
pub fn written_trees_are_spelled()
    ensures top { (e : Elem) → IsTree e → IsPlain e → SpellsTop written_scope (canon e) e }
    ensures inside { (scope : Scope) (default : List ℕ) (e : Elem) → unwrap_or (bound scope []) [] ≡ default
        → bound scope (codes "stream") ≡ Some streams_namespace → IsTree e → IsPlainElement e → Spells scope (written default e) e }
{}

/// A law: what is written for a header whose values are texts of XML's characters is the tag of the stream's header, and
/// says these values; it puts `jabber:client` in force as the default namespace and binds `stream`. The footer that is
/// written stands behind such a header.
pub fn written_headers_are_spelled()
    ensures header { (h : Header) → IsPlainHeader h → SpellsHeader (written_header h) (codes "stream:stream") written_scope (as_written h) }
    ensures footer { SpellsFooter written_footer (codes "stream:stream") }
{}
