//! Laws of the table, however items are written.
ghost use Rattle.std.specs.Prelude.{◌≡◌, ℕ, List, None, ◌++◌};
ghost use Rattle.xml_framer.specs.declared.items.Item.{Item};
ghost use Rattle.srv_state.specs.State.{Step, conn_at};
ghost use Rattle.srv_core.specs.Table.{after_item, after_items};
ghost use Rattle.srv_core.specs.Telling.{Tells};
ghost use Rattle.xml_writer.specs.Items.{ItemOut};

/// A law: items only add to the outputs, and a connection that they shut is told of.
pub fn outputs_tell<A>()
    ensures { (say : ItemOut → A) (k j : ℕ) (items : List Item) (s : Step A) → Tells k s (after_items say j items s) }
{}

/// A law: an item of a connection that isn't open changes nothing. So nothing comes of what is behind the item that shut
/// the connection.
pub fn what_is_shut_stays_shut<A>()
    ensures { (say : ItemOut → A) (k : ℕ) (i : Item) (s : Step A) → conn_at k s.server_state ≡ None → after_item say k i s ≡ s }
{}

/// A law: items in two pieces are those in one.
pub fn items_join<A>()
    ensures { (say : ItemOut → A) (k : ℕ) (a b : List Item) (s : Step A) → after_items say k (a ++ b) s ≡ after_items say k b (after_items say k a s) }
{}
