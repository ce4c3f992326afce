//! The laws.
ghost use Rattle.std.specs.Prelude.{◌≡◌, ℕ, ◌<◌, ◌^◌, Bool, true, List, IfSome, Ok};
ghost use Rattle.cl_core.specs.Feeds.{Fed, bytes_step};
ghost use Rattle.cl_core.specs.Steps.{items_run};
ghost use Rattle.cl_core.specs.UserCalls.{catches_up, closes, dials, forgets, leaves, says};
ghost use Rattle.law_limits.specs.Answerable.{AreAnswerable, IsAnswerable, IsPieceAnswerable};
ghost use Rattle.law_limits.specs.Short.{IsShort};
ghost use Rattle.law_limits.specs.Within.{IsAccountWithin, IsClientStepWithin, IsClientWithin};
ghost use Rattle.law_client.specs.Calls.{first_client};
ghost use Rattle.cl_handlers.specs.Clients.{ClientStep};
ghost use Rattle.cl_handlers.specs.Speech.{in_items};
ghost use Rattle.cl_handlers.specs.declared.account.Account.{Account};
ghost use Rattle.xml_framer.specs.declared.items.Item.{Item};
ghost use Rattle.law_xml.specs.Plain.{IsPlainElement};
ghost use Rattle.law_limits.specs.Bounds.{IsTextWithin, most_address, most_text};
ghost use Rattle.im_stanza.specs.Kinds.{answers_iq};
ghost use Rattle.im_stanza.specs.Readings.{stanza_of};
ghost use Rattle.im_stanza.specs.Views.{IqView};
ghost use Rattle.im_stanza.specs.declared.stanzas.Stanza.TheVariants.{Iq};
ghost use Rattle.xml_tokens.specs.Lines.{IsCharacters};
ghost use Rattle.xml_trees.specs.Trees.{Elem};
ghost use Rattle.xml_writer.specs.Items.{ItemOut};

/// A law: all that a client puts and queues is plain and within the limits of a server's framer as it is written, whatever
/// items come that it can answer, and whatever its user asks for within the bounds; and what it holds keeps to them.
pub fn what_a_client_puts_fits()
    ensures begins { (account : Account) → IsAccountWithin account → IsClientWithin (first_client account) }
    ensures items { (items : List Item) (t : ClientStep ItemOut ItemOut) → AreAnswerable items → IsClientStepWithin t → IsClientStepWithin (items_run in_items t items) }
    ensures bytes { (f : Fed ItemOut ItemOut) (piece : List ℕ) → IsPieceAnswerable f.framer piece → IsClientStepWithin f.turn → IsClientStepWithin (bytes_step in_items f piece).turn }
    ensures dials { (f : Fed ItemOut ItemOut) (entropy : List ℕ) → IsClientStepWithin f.turn → IsClientStepWithin (dials in_items entropy f).turn }
    ensures leaves { (f : Fed ItemOut ItemOut) → IsClientStepWithin f.turn → IsClientStepWithin (leaves f).turn }
    ensures forgets { (f : Fed ItemOut ItemOut) → IsClientStepWithin f.turn → IsClientStepWithin (forgets in_items f).turn }
    ensures closes { (f : Fed ItemOut ItemOut) → IsClientStepWithin f.turn → IsClientStepWithin (closes in_items f).turn }
    ensures says { (t : ClientStep ItemOut ItemOut) (to text : List ℕ) (private : Bool) → IsTextWithin most_address to → IsTextWithin most_text text → IsClientStepWithin t → IsClientStepWithin (says in_items t to text private) }
    ensures catches_up { (t : ClientStep ItemOut ItemOut) (max : ℕ) → max < 2 ^ 32 → IsClientStepWithin t → IsClientStepWithin (catches_up in_items t max) }
{}

/// A law: a client can answer each element that is plain, as all are that a framer gives, and whose texts are no longer than
/// an id may be. Of a request the address, whose resource may have U+FFFE and U+FFFF, is of XML's characters besides.
pub fn what_is_short_can_be_answered()
    ensures { (e : Elem) → IsPlainElement e → IsShort e → ((q : IqView) → stanza_of e ≡ Ok (Iq q) → answers_iq q.kind ≡ true → IfSome q.from IsCharacters) → IsAnswerable e }
{}
