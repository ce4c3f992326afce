//! Rounds on the links of one device.
ghost use Rattle.std.specs.Prelude.{Bool, ◌≡◌, ◌⊎◌, ℕ, ◌+◌, ◌≤◌, ◌<◌, [], Some, true};
ghost use Rattle.sm_acks.specs.Delivery.{IsPrefix};
ghost use Rattle.sim_2_links.specs.Words.{InHeader1, InOnline};
ghost use Rattle.sim_2_links.specs.Wires.{down_words, is_flowing, up_words};
ghost use Rattle.sim_2_links.specs.Stages.{Conn};
ghost use Rattle.sim_2_links.specs.Views.{Own, Row, Session, View};
ghost use Rattle.sim_2_links.specs.Machine.{LinkReached};
ghost use Rattle.sim_2_links.specs.Covers.{IsSettled, PromptReached};
ghost use Rattle.law_calm.specs.Rounds.{AreRounds, IsAny, IsRound, IsStill, rounds_to_go};

/// Where the client works on a connection that is open in the end, each round leaves it one round less to go, until it is
/// online (`falls`): so behind as many rounds as it had to go it is online, seven behind its dialling (`online`).
/// Whatever else happens meanwhile, there, on other connections of the device and for other devices, changes nothing of
/// that.
pub fn rounds_bring_the_client_online<A>()
    ensures falls { (v next : View A) (k : ℕ) (c d : Conn A) → LinkReached v → v.here ≡ Some k → v.conns k ≡ Some c → IsRound IsAny k v next →
        next.conns k ≡ Some d → is_flowing d.wires ≡ true → (rounds_to_go d.client < rounds_to_go c.client) ⊎ ((p : ℕ) × (d.client ≡ InOnline p)) }
    ensures online { (v last : View A) (k n : ℕ) (c d : Conn A) → LinkReached v → v.here ≡ Some k → v.conns k ≡ Some c → AreRounds IsAny k n v last → rounds_to_go c.client ≤ n →
        last.conns k ≡ Some d → is_flowing d.wires ≡ true → (p : ℕ) × (d.client ≡ InOnline p) }
{}

/// Where the client is online on a connection that is open in the end, and neither end puts a stanza or a request of
/// itself, two rounds leave nothing under way: a request brings a count in the same round or the next one, and a count
/// brings nothing.
pub fn what_is_under_way_comes_to_its_end<A>()
    ensures { (v last : View A) (k p : ℕ) (c d : Conn A) → LinkReached v → v.here ≡ Some k → v.conns k ≡ Some c → c.client ≡ InOnline p → AreRounds IsStill k 2 v last →
        last.conns k ≡ Some d → is_flowing d.wires ≡ true → (up_words d.wires ≡ []) × (down_words d.wires ≡ []) }
{}

/// So behind the rounds that a client has to go, and two more in which neither end puts anything of itself, nothing is
/// outstanding where the connection is open in the end: the client is online with a session that the server has on this
/// connection, each end handled all that the other put, and no stanza behind which the client put a request at once
/// waits.
pub fn a_device_settles<A>()
    ensures { (asks : A → Bool) (v mid last : View A) (k n : ℕ) (c d : Conn A) → LinkReached v → PromptReached asks last → v.here ≡ Some k → v.conns k ≡ Some c → rounds_to_go c.client ≤ n →
        AreRounds IsAny k n v mid → AreRounds IsStill k 2 mid last → last.conns k ≡ Some d → is_flowing d.wires ≡ true → IsSettled asks last k d }
{}

/// A session that its client has still, and that the server has in the end, is resumed: where the client dialled anew and
/// the connection is open in the end, behind as many rounds as that takes, five behind its dialling, the client is online
/// with the same session, and its epoch is the same.
pub fn a_session_that_stays_is_resumed<A>()
    ensures { (v last : View A) (k n : ℕ) (c d : Conn A) (own : Own A) (row ended : Row A) → LinkReached v → v.here ≡ Some k → v.conns k ≡ Some c → v.own ≡ Some own → v.row ≡ Some row → row.number ≡ own.number →
        c.client ≡ InHeader1 → AreRounds IsAny k n v last → 5 ≤ n → last.conns k ≡ Some d → is_flowing d.wires ≡ true → last.row ≡ Some ended → ended.number ≡ row.number →
        (d.client ≡ InOnline own.number) × (last.epoch ≡ v.epoch) }
{}

/// What the client had put in its session when the rounds began, the server has handled in the end, in its order: where
/// the connection is open in the end, and the client had fewer rounds to go than there are. What waited is put again by
/// then, and the last round hands it over.
pub fn what_was_put_is_handled<A>()
    ensures { (v last : View A) (k n p : ℕ) (c d : Conn A) (s t : Session A) → LinkReached v → v.here ≡ Some k → v.conns k ≡ Some c → AreRounds IsAny k n v last → rounds_to_go c.client + 1 ≤ n →
        last.conns k ≡ Some d → is_flowing d.wires ≡ true → d.client ≡ InOnline p → v.sessions p ≡ Some s → last.sessions p ≡ Some t → IsPrefix s.up.put t.up.got }
{}
