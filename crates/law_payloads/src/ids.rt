//! Laws of unique and stable ids of stanzas (XEP-0359).
ghost use Rattle.std.specs.Prelude.{◌≡◌, Ok};
ghost use Rattle.im_extensions.specs.Ids.{IsOriginId, IsStanzaId, OriginIdLacks, StanzaIdLacks, is_origin_id, is_stanza_id, origin_id_elem, stanza_id_elem};
ghost use Rattle.im_extensions.specs.Readings.{origin_id_read, stanza_id_read};
ghost use Rattle.im_extensions.specs.declared.ids.OriginId.{OriginId};
ghost use Rattle.im_extensions.specs.declared.ids.StanzaId.{StanzaId};
ghost use Rattle.law_payloads.specs.Answers.{IsAnswer};
ghost use Rattle.xml_trees.specs.Trees.{Elem};

/// A law: what is read of an id of a stanza is what the grammar says that the element stands for, and each refusal
/// comes exactly where the grammar tells it.
pub fn ids_are_read_as_stated()
    ensures stanza_id { (e : Elem) → IsAnswer (stanza_id_read e) (is_stanza_id e) (StanzaIdLacks e) (IsStanzaId e) }
    ensures origin_id { (e : Elem) → IsAnswer (origin_id_read e) (is_origin_id e) (OriginIdLacks e) (IsOriginId e) }
{}

/// A law: what is written of an id is read as that id.
pub fn written_ids_are_read_back()
    ensures stanza_id { (v : StanzaId) → stanza_id_read (stanza_id_elem v) ≡ Ok v }
    ensures origin_id { (v : OriginId) → origin_id_read (origin_id_elem v) ≡ Ok v }
{}
