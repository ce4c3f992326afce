//! Laws of what is read of a tree and of the element that it was made of, and of messages and presences that are sent back
//! (RFC 6120, section 8.3).
ghost use Rattle.std.specs.Prelude.{◌≡◌, ◌≢◌, ℕ, Err, List, None, Ok, Some, [], codes, map, pos};
ghost use Rattle.im_jid.specs.Normal.{normal};
ghost use Rattle.im_jid.specs.declared.fault.JidFault.{JidFault};
ghost use Rattle.im_stanza.specs.Answering.{bounce_elem, presence_bounce_elem};
ghost use Rattle.im_stanza.specs.Conditions.{IsPlain, condition_name};
ghost use Rattle.im_stanza.specs.Errors.{error_elem, stanza_error_of};
ghost use Rattle.im_stanza.specs.Readings.{stanza_of};
ghost use Rattle.im_stanza.specs.declared.errors.StanzaError.{StanzaError};
ghost use Rattle.im_stanza.specs.declared.fault.StanzaFault.TheVariants as fault;
ghost use Rattle.im_stanza.specs.declared.kinds.MessageKind.TheVariants as kind;
ghost use Rattle.im_stanza.specs.declared.kinds.PresenceKind.TheVariants as presence;
ghost use Rattle.im_stanza.specs.declared.stanzas.Stanza.TheVariants as stanza;
ghost use Rattle.xml_trees.specs.Readers.{elements_of};
ghost use Rattle.xml_trees.specs.Tidied.{tidied, tidied_nodes};
ghost use Rattle.xml_trees.specs.Trees.{Elem, Nodes, child, no_nodes, nodes_of};

/// A law: the elements directly in a tidied element are the tidied ones of those in the element, in their order.
pub fn elements_are_tidied()
    ensures inside { (e : Elem) → elements_of (nodes_of (tidied e)) ≡ map tidied (elements_of (nodes_of e)) }
    ensures nodes { (ks : Nodes) → elements_of (tidied_nodes ks) ≡ map tidied (elements_of ks) }
{}

/// A law: what answers a message with an error is a message of the type `error` without a `to`, from the normal form of
/// where the message went, and the error in it is that error, if its condition is given as its own variant, where it
/// has one, and isn't named `text`. Where the message went to no address, what answers it is refused as a stanza for
/// its `from`.
pub fn bounced_messages_are_read_back()
    ensures message { (from id form : List ℕ) (error : StanzaError) → normal from ≡ Ok form
        → stanza_of (tidied (bounce_elem from id error)) ≡ Ok (stanza.Message (record { from = Some form; to = None; id = id; kind = kind.Error; lang = []; payload = child (error_elem error) no_nodes })) }
    ensures error { (from id : List ℕ) (error : StanzaError) → IsPlain error.condition → condition_name error.condition ≢ codes "text"
        → stanza_error_of (tidied (bounce_elem from id error)) ≡ Ok error }
    ensures bad_from { (from id : List ℕ) (error : StanzaError) (why : JidFault) → normal from ≡ Err why → stanza_of (tidied (bounce_elem from id error)) ≡ Err fault.BadFrom }
{}

/// A law: what answers a presence with an error is a presence of the type `error` without a `to`, from where that one
/// went, with its id, and the error in it is that error, if its condition is given as its own variant, where it has
/// one, and isn't named `text`.
pub fn bounced_presences_are_read_back()
    ensures presence { (from id form : List ℕ) (error : StanzaError) → normal from ≡ Ok form
        → stanza_of (tidied (presence_bounce_elem from id error)) ≡ Ok (stanza.Presence (record { from = Some form; to = None; id = id; kind = presence.Error; priority = pos 0 })) }
    ensures error { (from id : List ℕ) (error : StanzaError) → IsPlain error.condition → condition_name error.condition ≢ codes "text"
        → stanza_error_of (tidied (presence_bounce_elem from id error)) ≡ Ok error }
{}
