//! What reading and writing say of each other.
ghost use Rattle.std.specs.Prelude.{◌≡◌, ◌≢◌, ◌↔◌, ℕ, Bool, List, Option, Some, Ok, Err, IfSome, FitsSigned, codes};
ghost use Rattle.std.specs.Int.{w8};
ghost use Rattle.xml_trees.specs.Readers.{child_of};
ghost use Rattle.xml_trees.specs.Tidied.{tidied, tidied_nodes};
ghost use Rattle.xml_trees.specs.Trees.{AreTidy, Elem, IsTree, nodes_of};
ghost use Rattle.im_stanza.specs.Conditions.{condition_in, condition_name, IsPlain};
ghost use Rattle.im_stanza.specs.Errors.{HasNoError, IsStanzaError, error_elem, stanza_error_of, stream_error_elem};
ghost use Rattle.im_stanza.specs.Names.{client_ns, stream_errors_ns};
ghost use Rattle.im_stanza.specs.Readings.{stanza_of};
ghost use Rattle.im_stanza.specs.Stanzas.{IsBadFormat, IsBadFrom, IsBadTo, IsIq, IsMessage, IsNoStanza, IsPresence};
ghost use Rattle.im_stanza.specs.Views.{IqView, MessageView};
ghost use Rattle.im_stanza.specs.declared.errors.StanzaError.{StanzaError};
ghost use Rattle.im_stanza.specs.declared.stanzas.Presence.{Presence};
ghost use Rattle.im_stanza.specs.Written.{IsNormal, iq_elem, message_elem, presence_elem};

use crate::fault::{StanzaErrorFault, StanzaFault};
use crate::stanzas::Stanza;

/// A law: what `read_stanza` answers is told by the relations of trees and stanzas. A stanza comes exactly for the trees
/// that are it, and each refusal exactly where it is stated.
pub fn stanzas_are_read_as_stated()
    ensures message { (tree : Elem) (m : MessageView) → (stanza_of tree ≡ Ok (Stanza.Message m)) ↔ IsMessage tree m }
    ensures presence { (tree : Elem) (p : Presence) → (stanza_of tree ≡ Ok (Stanza.Presence p)) ↔ IsPresence tree p }
    ensures iq { (tree : Elem) (q : IqView) → (stanza_of tree ≡ Ok (Stanza.Iq q)) ↔ IsIq tree q }
    ensures no_stanza { (tree : Elem) → (stanza_of tree ≡ Err StanzaFault.NotAStanza) ↔ IsNoStanza tree }
    ensures bad_format { (tree : Elem) → (stanza_of tree ≡ Err StanzaFault.BadFormat) ↔ IsBadFormat tree }
    ensures bad_from { (tree : Elem) → (stanza_of tree ≡ Err StanzaFault.BadFrom) ↔ IsBadFrom tree }
    ensures bad_to { (tree : Elem) (message reply : Bool) (from : Option (List ℕ)) (id to : List ℕ) → (stanza_of tree ≡ Err (StanzaFault.BadTo message reply from id to)) ↔ IsBadTo tree message reply from id to }
{}

/// A law: what is written of a stanza is read back as that stanza, its payload tidied where it wasn't. Of a tidy payload
/// the tree is exactly the one that the definition makes.
pub fn written_stanzas_are_read_back()
    ensures message { (m : MessageView) → IsNormal m.from → IsNormal m.to → AreTidy m.payload → stanza_of (message_elem m) ≡ Ok (Stanza.Message m) }
    ensures message_stays { (m : MessageView) → AreTidy m.payload → tidied (message_elem m) ≡ message_elem m }
    ensures message_tidied { (m : MessageView) → IsNormal m.from → IsNormal m.to → stanza_of (tidied (message_elem m)) ≡ Ok (Stanza.Message (record m { payload = tidied_nodes m.payload })) }
    ensures presence { (p : Presence) → IsNormal p.from → IsNormal p.to → FitsSigned w8 p.priority → stanza_of (presence_elem p) ≡ Ok (Stanza.Presence p) }
    ensures presence_stays { (p : Presence) → FitsSigned w8 p.priority → tidied (presence_elem p) ≡ presence_elem p }
    ensures iq { (q : IqView) → IsNormal q.from → IsNormal q.to → AreTidy q.payload → stanza_of (iq_elem q) ≡ Ok (Stanza.Iq q) }
    ensures iq_stays { (q : IqView) → AreTidy q.payload → tidied (iq_elem q) ≡ iq_elem q }
    ensures iq_tidied { (q : IqView) → IsNormal q.from → IsNormal q.to → stanza_of (tidied (iq_elem q)) ≡ Ok (Stanza.Iq (record q { payload = tidied_nodes q.payload })) }
{}

/// A law: what `stanza_error` answers is told by the relation of trees and errors, and it finds none exactly where the
/// first child `error`, if any, names no condition.
pub fn errors_are_read_as_stated()
    ensures error { (tree : Elem) (e : StanzaError) → (stanza_error_of tree ≡ Ok e) ↔ IsStanzaError tree e }
    ensures no_error { (tree : Elem) → (stanza_error_of tree ≡ Err StanzaErrorFault.NoError) ↔ HasNoError tree }
{}

/// A law: an error that is written as the first `error` of a stanza is read back as that error, and a stream error as its
/// condition, unless the condition is named `text`. Both are trees as they stand.
pub fn written_errors_are_read_back()
    ensures error { (tree : Elem) (e : StanzaError) → child_of client_ns (codes "error") tree ≡ Some (error_elem e) → IsPlain e.condition → condition_name e.condition ≢ codes "text" → stanza_error_of tree ≡ Ok e }
    ensures error_stays { (e : StanzaError) → tidied (error_elem e) ≡ error_elem e }
    ensures stream { (condition : List ℕ) (extra : Option Elem) → condition ≢ codes "text" → condition_in stream_errors_ns (nodes_of (tidied (stream_error_elem condition extra))) ≡ Some condition }
    ensures stream_stays { (condition : List ℕ) (extra : Option Elem) → IfSome extra IsTree → tidied (stream_error_elem condition extra) ≡ stream_error_elem condition extra }
{}
