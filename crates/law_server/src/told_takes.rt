//! The laws.
ghost use Rattle.std.specs.Prelude.{◌≡◌, ℕ, List, Option, IfSome};
ghost use Rattle.srv_state.specs.Moments.{at_moment};
ghost use Rattle.srv_state.specs.State.{Out, ServerState, Step};
ghost use Rattle.xml_framer.specs.declared.items.Item.{Item};
ghost use Rattle.srv_login.specs.declared.account.Account.{Account};
ghost use Rattle.srv_core.specs.Configs.{at_start};
ghost use Rattle.srv_core.specs.Events.{Whole, after_bytes, after_connect, after_gone, begun};
ghost use Rattle.srv_core.specs.Table.{after_item, after_items};
ghost use Rattle.law_server.specs.Sound.{IsSound};
ghost use Rattle.law_server.specs.Taken.{HasTaken, IsTakenFrom, Taken, at_most_one};
ghost use Rattle.xml_writer.specs.Items.{ItemOut};

/// A law: the archives get the entries of the messages that the server tells of, and are else as they were. An entry goes
/// to the archive of its sender's account and to that of the account that the message is to, once where these are one, and
/// has the addresses, the moment and the origin id that are told of it. So what is told and what is archived is the same,
/// told twice, and the two archives of one message have one entry, but for its number.
///
/// An item takes one message or none: the message that it is, of the session on its connection. Items, and the bytes of an
/// event, take messages one after another. No other event takes one.
pub fn archives_get_what_is_told<A>()
    ensures item { (say : ItemOut → A) (k : ℕ) (i : Item) (s : Step A) → (taken : Option Taken) × HasTaken (at_most_one taken) s (after_item say k i s) × IfSome taken (IsTakenFrom k i s.server_state) }
    ensures items { (say : ItemOut → A) (k : ℕ) (items : List Item) (s : Step A) → (takes : List Taken) × HasTaken takes s (after_items say k items s) }
    ensures bytes { (say : ItemOut → A) (k : ℕ) (piece : List ℕ) (now : ℕ) (w : Whole A) (outs : List (Out A)) → (takes : List Taken) × HasTaken takes (begun now w.server_state outs) (after_bytes say k piece now w outs) }
    ensures connect { (k : ℕ) (entropy : List ℕ) (now : ℕ) (w : Whole A) → (after_connect k entropy now w).server_state.archives ≡ w.server_state.archives }
    ensures gone { (k now : ℕ) (w : Whole A) → (after_gone k now w).server_state.archives ≡ w.server_state.archives }
    ensures moment { (now : ℕ) (h : ServerState A) → (at_moment now h).archives ≡ h.archives }
{}

/// A law: servers are sound. The numbers of sessions rise and are below the next one, sessions and logins are of
/// accounts that exist, and no archive gave a number above the greatest: so it is at the start, and stays so at each
/// event (at items and bytes: `HasTaken`).
pub fn servers_stay_sound<A>()
    ensures start { (domain : List ℕ) (accounts : List Account) (keep : ℕ) → IsSound (at_start {A = A} domain accounts keep).server_state }
    ensures connect { (k : ℕ) (entropy : List ℕ) (now : ℕ) (w : Whole A) → IsSound w.server_state → IsSound (after_connect k entropy now w).server_state }
    ensures gone { (k now : ℕ) (w : Whole A) → IsSound w.server_state → IsSound (after_gone k now w).server_state }
    ensures moment { (now : ℕ) (h : ServerState A) → IsSound h → IsSound (at_moment now h) }
{}
