//! The laws of acknowledged delivery, over lists and without counters that wrap.
ghost use Rattle.std.specs.Prelude.{◌≡◌, ℕ, ◌≤◌, ◌++◌, [], List, Some, length, Contains, IsTrue};
ghost use Rattle.std.specs.List.Sorted.{IsNonDecreasing};
ghost use Rattle.sm_acks.specs.Counters.{AckView};
ghost use Rattle.sm_acks.specs.Delivery.{Acknowledge, beginning, Cut, Direction, Handle, IsPrefix, IsReceiver, IsSender, Move, Moves, Put, Reached, Reaches, Resume, State};
ghost use Rattle.sim_2_links.specs.Pairs.{Pair, PairMove, PairMoves, PairReached};
ghost use Rattle.sm_acks.specs.Queues.{PoolView, stanzas_of};

/// Whatever was put, handled, stated, acknowledged, cut and resumed, what the receiving end handled is a prefix of what
/// the sending end put, so that no stanza is lost before a later one, doubled or exchanged. What is under way follows
/// it, and while the way is open nothing else was put. No more is acknowledged, or stated, than was handled.
pub fn delivery_is_a_prefix<A>()
    ensures prefix { (moves : List (Move A)) (d : Direction A) → Reaches moves beginning d → IsPrefix d.got d.put }
    ensures way { (moves : List (Move A)) (d : Direction A) → Reaches moves beginning d → IsPrefix (d.got ++ d.way) d.put }
    ensures whole { (moves : List (Move A)) (d : Direction A) → Reaches moves beginning d → IsTrue d.is_open → d.put ≡ d.got ++ d.way }
    ensures acked { (moves : List (Move A)) (d : Direction A) → Reaches moves beginning d → d.acked ≤ length d.got }
    ensures stated { (moves : List (Move A)) (d : Direction A) → Reaches moves beginning d → (n : ℕ) → Contains d.stated n → n ≤ length d.got }
{}

/// A run of moves can go on: where a direction, or both directions of a session, are reached, one move more leads to
/// what is reached too.
pub fn reached_grows<A>()
    ensures direction { (move : Move A) (d next : Direction A) → Reached d → Moves move d next → Reached next }
    ensures pair { (move : PairMove A) (p next : Pair A) → PairReached p → PairMoves move p next → PairReached next }
{}

/// What moves of a session lead to are two directions that moves of their own lead to, so that the law of delivery holds
/// of both.
pub fn both_directions_are_reached<A>()
    ensures down { (p : Pair A) → PairReached p → Reached p.down }
    ensures up { (p : Pair A) → PairReached p → Reached p.up }
{}

/// The counts that a receiving end stated ascend in the order in which it stated them.
pub fn stated_counts_ascend<A>()
    ensures { (d : Direction A) → Reached d → IsNonDecreasing d.stated }
{}

/// A new end with an empty queue is both ends of two directions on which nothing happened.
pub fn new_ends_begin()
    ensures sends { (end : AckView) (pool : PoolView) → end.acked ≡ 0 → stanzas_of end.queue pool ≡ Some [] → IsSender end pool beginning }
    ensures receives { (end : AckView) → end.handled ≡ 0 → IsReceiver end beginning }
{}

/// A sending end stays the same direction's where the other end handles a stanza or states a count, where the connection
/// is lost, and where the pool changes but for the end's own queue.
pub fn senders_stay()
    ensures handles { (end : AckView) (pool : PoolView) (d next : Direction (List ℕ)) → IsSender end pool d → Moves Handle d next → IsSender end pool next }
    ensures states { (end : AckView) (pool : PoolView) (d next : Direction (List ℕ)) → IsSender end pool d → Moves State d next → IsSender end pool next }
    ensures cuts { (end : AckView) (pool : PoolView) (n : ℕ) (d next : Direction (List ℕ)) → IsSender end pool d → Moves (Cut n) d next → IsSender end pool next }
    ensures elsewhere { (end : AckView) (pool after : PoolView) (d : Direction (List ℕ)) → stanzas_of end.queue after ≡ stanzas_of end.queue pool → IsSender end pool d → IsSender end after d }
{}

/// A receiving end stays the same direction's where a stanza is put, a count is stated or acknowledged, the connection is
/// lost or the session is resumed.
pub fn receivers_stay()
    ensures puts { (end : AckView) (stanza : List ℕ) (d next : Direction (List ℕ)) → IsReceiver end d → Moves (Put stanza) d next → IsReceiver end next }
    ensures states { (end : AckView) (d next : Direction (List ℕ)) → IsReceiver end d → Moves State d next → IsReceiver end next }
    ensures acknowledges { (end : AckView) (n : ℕ) (d next : Direction (List ℕ)) → IsReceiver end d → Moves (Acknowledge n) d next → IsReceiver end next }
    ensures cuts { (end : AckView) (n : ℕ) (d next : Direction (List ℕ)) → IsReceiver end d → Moves (Cut n) d next → IsReceiver end next }
    ensures resumes { (end : AckView) (d next : Direction (List ℕ)) → IsReceiver end d → Moves Resume d next → IsReceiver end next }
{}
