//! The law.
ghost use Rattle.std.specs.Prelude.{ℕ, Bool, List};
ghost use Rattle.cl_core.specs.Feeds.{Fed, bytes_step};
ghost use Rattle.cl_core.specs.Steps.{items_run};
ghost use Rattle.cl_core.specs.UserCalls.{catches_up, closes, dials, forgets, leaves, says};
ghost use Rattle.law_client.specs.Order.{HasNoEnd, PutsHeader, PutsInOrder};
ghost use Rattle.cl_handlers.specs.Clients.{ClientStep};
ghost use Rattle.cl_handlers.specs.Speech.{in_items};
ghost use Rattle.xml_framer.specs.declared.items.Item.{Item};
ghost use Rattle.xml_writer.specs.Items.{ItemOut};

/// A law: a client of items puts each where it may stand in a stream: a header first, nothing behind a footer, and nothing
/// where no connection stands. What waits in its session is no footer.
pub fn a_client_puts_in_order()
    ensures items { (items : List Item) (t : ClientStep ItemOut ItemOut) → HasNoEnd t.client.session → PutsInOrder t (items_run in_items t items) }
    ensures bytes { (f : Fed ItemOut ItemOut) (piece : List ℕ) → HasNoEnd f.turn.client.session → PutsInOrder f.turn (bytes_step in_items f piece).turn }
    ensures dials { (f : Fed ItemOut ItemOut) (entropy : List ℕ) → HasNoEnd f.turn.client.session → PutsHeader f.turn (dials in_items entropy f).turn }
    ensures leaves { (f : Fed ItemOut ItemOut) → HasNoEnd f.turn.client.session → PutsInOrder f.turn (leaves f).turn }
    ensures forgets { (f : Fed ItemOut ItemOut) → HasNoEnd f.turn.client.session → PutsInOrder f.turn (forgets in_items f).turn }
    ensures closes { (f : Fed ItemOut ItemOut) → HasNoEnd f.turn.client.session → PutsInOrder f.turn (closes in_items f).turn }
    ensures says { (t : ClientStep ItemOut ItemOut) (to text : List ℕ) (private : Bool) → HasNoEnd t.client.session → PutsInOrder t (says in_items t to text private) }
    ensures catches_up { (t : ClientStep ItemOut ItemOut) (max : ℕ) → HasNoEnd t.client.session → PutsInOrder t (catches_up in_items t max) }
{}
