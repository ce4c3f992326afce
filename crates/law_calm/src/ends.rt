//! How a connection ends, and how a session does.
ghost use Rattle.std.specs.Prelude.{◌≡◌, ◌⊎◌, ◌≤◌, ℕ, List, Some};
ghost use Rattle.sim_2_links.specs.Machine.{LinkMove, LinkReached, LinkReaches};
ghost use Rattle.sim_2_links.specs.Views.{Own, View};
ghost use Rattle.sim_2_links.specs.Words.{InHeader1};
ghost use Rattle.law_calm.specs.Ends.{EndsConn, EndsSession, EndsWithin, HasCounted, IsAmong, IsOnlineOn, WorksOn};
ghost use Rattle.law_calm.specs.Rounds.{AreRounds, IsAny, rounds_to_go};

/// A connection on which the client works stays open, and the client works there still, whatever moves come: or one of
/// them ends it. Then the network cuts it, or the server ends the stream by `conflict` or `resource-constraint` (RFC 6120,
/// section 4.9.3). No move of the client ends it, and none else of the server: it reads no footer there, and no count
/// that is too high.
pub fn a_connection_stays_open_until_it_is_ended<A>()
    ensures { (moves : List (LinkMove A)) (v last : View A) (k : ℕ) → LinkReached v → WorksOn k v → LinkReaches moves v last → WorksOn k last ⊎ IsAmong (WorksOn k) (EndsConn k) moves v last }
{}

/// A session that the server counts it has still, whatever moves come: or one of them ends it. Then it was on no
/// connection, or a late resumption stated a count that is too high, on a connection that the client had left. No cut, no
/// end of a connection and no stanza ends it by itself.
pub fn a_counted_session_stays_until_it_is_ended<A>()
    ensures { (moves : List (LinkMove A)) (v last : View A) (p : ℕ) → LinkReached v → HasCounted p v → LinkReaches moves v last → HasCounted p last ⊎ IsAmong (HasCounted p) EndsSession moves v last }
{}

/// So rounds bring the client online, in as many as it has to go, or the connection ends within them (`online`). And where
/// it had dialled anew, and its session is one that the server counts, five of them resume that session, in the same
/// epoch; or the connection ends within them, or the session does (`resumed`). Nothing is presumed of the end.
pub fn rounds_resume_unless_something_ends<A>()
    ensures online { (v last : View A) (k n : ℕ) (w : WorksOn k v) → LinkReached v → AreRounds IsAny k n v last → rounds_to_go w.conn.client ≤ n →
        ((p : ℕ) × IsOnlineOn k p last) ⊎ EndsWithin (WorksOn k) (EndsConn k) v last }
    ensures resumed { (v last : View A) (k n : ℕ) (own : Own A) (w : WorksOn k v) → LinkReached v → v.own ≡ Some own → HasCounted own.number v → w.conn.client ≡ InHeader1 → AreRounds IsAny k n v last → 5 ≤ n →
        (IsOnlineOn k own.number last × (last.epoch ≡ v.epoch)) ⊎ (EndsWithin (WorksOn k) (EndsConn k) v last ⊎ EndsWithin (HasCounted own.number) EndsSession v last) }
{}
