//! The laws.
ghost use Rattle.std.specs.Prelude.{◌≡◌, ℕ, List, Option};
ghost use Rattle.srv_state.specs.Moments.{at_moment, gone_at, with_fresh};
ghost use Rattle.srv_state.specs.State.{Out, ServerState, Step};
ghost use Rattle.xml_framer.specs.States as framing;
ghost use Rattle.xml_framer.specs.States.{Turn};
ghost use Rattle.xml_framer.specs.declared.fault.Fault.{Fault};
ghost use Rattle.xml_framer.specs.declared.items.Item.{Item};
ghost use Rattle.srv_core.specs.Events.{Framers, IsAfterBytes, StopsAt, Whole, after_bytes, after_connect, after_fault, after_gone, after_turn, at_piece, begun, dropped, news};
ghost use Rattle.srv_core.specs.Table.{after_item, after_items};
ghost use Rattle.law_server.specs.Rendered.{outs_rendered, rendered, server_state_rendered, step_rendered};
ghost use Rattle.law_server.specs.Encodings.{itself, outs_written, server_state_written, step_written, whole_rendered, whole_written};
ghost use Rattle.xml_writer.specs.Items.{ItemOut, written_item};

/// A law: an event of bytes is the same however what is put is written: an item, the fault behind the items of a piece,
/// all of a turn of the framer, a piece, and the event that begins with the moment.
pub fn events_are_the_same_however_written<A, B>()
    ensures item { (f : A → B) (say : ItemOut → A) (k : ℕ) (i : Item) (s : Step A) → after_item (rendered f say) k i (step_rendered f s) ≡ step_rendered f (after_item say k i s) }
    ensures fault { (f : A → B) (say : ItemOut → A) (k : ℕ) (o : Option Fault) (s : Step A) → after_fault (rendered f say) k o (step_rendered f s) ≡ step_rendered f (after_fault say k o s) }
    ensures turn { (f : A → B) (say : ItemOut → A) (k : ℕ) (t : Turn) (s : Step A) → after_turn (rendered f say) k t (step_rendered f s) ≡ step_rendered f (after_turn say k t s) }
    ensures piece { (f : A → B) (say : ItemOut → A) (k : ℕ) (piece : List ℕ) (o : Option framing.State) (s : Step A)
        → at_piece (rendered f say) k piece o (step_rendered f s) ≡ step_rendered f (at_piece say k piece o s) }
    ensures bytes { (f : A → B) (say : ItemOut → A) (k : ℕ) (piece : List ℕ) (now : ℕ) (w : Whole A) (outs : List (Out A))
        → after_bytes (rendered f say) k piece now (whole_rendered f w) (outs_rendered f outs) ≡ step_rendered f (after_bytes say k piece now w outs) }
{}

/// A law: what puts nothing doesn't look at what waits. The moment passes, a connection comes, and one goes, with what
/// is known of its bytes, all the same.
pub fn moments_are_the_same_however_written<A, B>()
    ensures moment { (f : A → B) (now : ℕ) (h : ServerState A) → at_moment now (server_state_rendered f h) ≡ server_state_rendered f (at_moment now h) }
    ensures begun { (f : A → B) (now : ℕ) (h : ServerState A) (outs : List (Out A)) → begun now (server_state_rendered f h) (outs_rendered f outs) ≡ step_rendered f (begun now h outs) }
    ensures fresh { (f : A → B) (k : ℕ) (entropy : List ℕ) (h : ServerState A) → with_fresh k entropy (server_state_rendered f h) ≡ server_state_rendered f (with_fresh k entropy h) }
    ensures gone { (f : A → B) (k : ℕ) (h : ServerState A) → gone_at k (server_state_rendered f h) ≡ server_state_rendered f (gone_at k h) }
    ensures connect { (f : A → B) (k : ℕ) (entropy : List ℕ) (now : ℕ) (w : Whole A) → after_connect k entropy now (whole_rendered f w) ≡ whole_rendered f (after_connect k entropy now w) }
    ensures after_gone { (f : A → B) (k now : ℕ) (w : Whole A) → after_gone k now (whole_rendered f w) ≡ whole_rendered f (after_gone k now w) }
    ensures news { (f : A → B) (old new : List (Out A)) → news (outs_rendered f old) (outs_rendered f new) ≡ outs_rendered f (news old new) }
    ensures dropped { (f : A → B) (outs : List (Out A)) (framers : Framers) → dropped (outs_rendered f outs) framers ≡ dropped outs framers }
{}

/// A law: the relations of a server's clauses go through: what an event of bytes made, and what one made that ran out of
/// memory.
pub fn relations_are_the_same_however_written<A, B>()
    ensures after { (f : A → B) (say : ItemOut → A) (k : ℕ) (piece : List ℕ) (now : ℕ) (old : Whole A) (outs : List (Out A)) (new : Whole A) (new_outs : List (Out A))
        → IsAfterBytes say k piece now old outs new new_outs → IsAfterBytes (rendered f say) k piece now (whole_rendered f old) (outs_rendered f outs) (whole_rendered f new) (outs_rendered f new_outs) }
    ensures stops { (f : A → B) (say : ItemOut → A) (k : ℕ) (t : Turn) (now : ℕ) (old : Whole A) (outs : List (Out A)) (new : Whole A) (new_outs : List (Out A))
        → StopsAt say k t now old outs new new_outs → StopsAt (rendered f say) k t now (whole_rendered f old) (outs_rendered f outs) (whole_rendered f new) (outs_rendered f new_outs) }
{}

/// A law: the server of bytes encodes the server of items. Where what waits and what was put are the written
/// items of one, they are so behind each item, each fault, each piece, each moment and each connection that comes or goes.
pub fn bytes_are_the_items_written()
    ensures item { (k : ℕ) (i : Item) (s : Step ItemOut) → after_item written_item k i (step_written s) ≡ step_written (after_item itself k i s) }
    ensures items { (k : ℕ) (items : List Item) (s : Step ItemOut) → after_items written_item k items (step_written s) ≡ step_written (after_items itself k items s) }
    ensures fault { (k : ℕ) (o : Option Fault) (s : Step ItemOut) → after_fault written_item k o (step_written s) ≡ step_written (after_fault itself k o s) }
    ensures turn { (k : ℕ) (t : Turn) (s : Step ItemOut) → after_turn written_item k t (step_written s) ≡ step_written (after_turn itself k t s) }
    ensures bytes { (k : ℕ) (piece : List ℕ) (now : ℕ) (w : Whole ItemOut) (outs : List (Out ItemOut))
        → after_bytes written_item k piece now (whole_written w) (outs_written outs) ≡ step_written (after_bytes itself k piece now w outs) }
    ensures moment { (now : ℕ) (h : ServerState ItemOut) → at_moment now (server_state_written h) ≡ server_state_written (at_moment now h) }
    ensures connect { (k : ℕ) (entropy : List ℕ) (now : ℕ) (w : Whole ItemOut) → after_connect k entropy now (whole_written w) ≡ whole_written (after_connect k entropy now w) }
    ensures gone { (k now : ℕ) (w : Whole ItemOut) → after_gone k now (whole_written w) ≡ whole_written (after_gone k now w) }
    ensures news { (old new : List (Out ItemOut)) (framers : Framers) → dropped (news (outs_written old) (outs_written new)) framers ≡ dropped (news old new) framers }
{}
