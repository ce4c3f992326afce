//! The laws.
ghost use Rattle.std.specs.Prelude.{◌+◌, ◌<◌, ◌^◌, ◌≤◌, ℕ, List, length};
ghost use Rattle.srv_state.specs.Moments.{at_moment, gone_at, with_fresh};
ghost use Rattle.srv_state.specs.State.{ServerState, Step};
ghost use Rattle.xml_framer.specs.declared.items.Item.{Item};
ghost use Rattle.sim_3_items.specs.ItemMoves.{ItemMove, all_moved, moved};
ghost use Rattle.sim_3_items.specs.ItemWorlds.{ItemWorld};
ghost use Rattle.srv_login.specs.declared.account.Account.{Account};
ghost use Rattle.srv_core.specs.Configs.{server_state_at_start};
ghost use Rattle.srv_core.specs.Table.{after_item};
ghost use Rattle.sim_3_images.specs.Unbound.{IsOrdered, IsWithin, Rests, unbound};
ghost use Rattle.sim_3_images.specs.Worlds.{IsWorldWithin};
ghost use Rattle.xml_writer.specs.Items.{ItemOut};

/// A law: the next number of a session and the count of open connections without a session, together, never rise, but
/// by one at most where a connection comes. So it is at any item on any connection, whatever it is, at the end of a
/// connection and as moments pass. Only a binding gives a number, and only on a connection that had no session; and
/// what takes the session of a connection shuts that connection too. The rule of sessions and the order of connections
/// stay. Of items it is said where that sum has 64 bits: else a number would have none.
pub fn numbers_are_given_to_connections<A>()
    ensures item { (say : ItemOut → A) (k : ℕ) (i : Item) (s : Step A) → IsOrdered s.server_state → s.server_state.next + unbound s.server_state < 2 ^ 64
        → Rests s.server_state (after_item say k i s).server_state }
    ensures gone { (k : ℕ) (h : ServerState A) → IsOrdered h → Rests h (gone_at k h) }
    ensures moment { (now : ℕ) (h : ServerState A) → IsOrdered h → Rests h (at_moment now h) }
    ensures fresh { (k : ℕ) (entropy : List ℕ) (h : ServerState A) → (with_fresh k entropy h).next + unbound (with_fresh k entropy h) ≤ h.next + unbound h + 1 }
    ensures ordered { (k : ℕ) (entropy : List ℕ) (h : ServerState A) → IsOrdered h → IsOrdered (with_fresh k entropy h) }
{}

/// A law: behind n connections no more than n numbers were given, from the start on, whatever happens: the next one is
/// at most n + 1.
pub fn numbers_are_within_connections<A>()
    ensures start { (domain : List ℕ) (accounts : List Account) (keep : ℕ) → IsWithin {A = A} 0 (server_state_at_start domain accounts keep) }
    ensures item { (say : ItemOut → A) (k : ℕ) (i : Item) (n : ℕ) (s : Step A) → n + 1 < 2 ^ 64 → IsWithin n s.server_state → IsWithin n (after_item say k i s).server_state }
    ensures gone { (k n : ℕ) (h : ServerState A) → IsWithin n h → IsWithin n (gone_at k h) }
    ensures moment { (now n : ℕ) (h : ServerState A) → IsWithin n h → IsWithin n (at_moment now h) }
    ensures fresh { (k : ℕ) (entropy : List ℕ) (n : ℕ) (h : ServerState A) → IsWithin n h → IsWithin (n + 1) (with_fresh k entropy h) }
    ensures next { (n : ℕ) (h : ServerState A) → IsWithin n h → h.next ≤ n + 1 }
{}

/// A law: so it is in worlds of items. Where no more numbers were given than connections were dialed, it is so behind any
/// move (`one`), and behind moves one after another (`many`), as long as there are fewer than 2 ^ 64 - 1 connections.
pub fn worlds_give_no_more_numbers()
    ensures one { (m : ItemMove) (w : ItemWorld) → IsWorldWithin w → length (moved m w).wires + 1 < 2 ^ 64 → IsWorldWithin (moved m w) }
    ensures many { (moves : List ItemMove) (w : ItemWorld) → IsWorldWithin w → length (all_moved moves w).wires + 1 < 2 ^ 64
        → IsWorldWithin (all_moved moves w) }
{}
