//! What holds wherever the moves of one device and its server lead.
//!
//! The links of one device are a machine of small moves, more permissive than either core: the server may end a
//! session or put a stanza at any time, the network may cut anywhere. So each move has one lemma, where two cores
//! beside each other would have one for each pair of rows.
//!
//! What a cut loses stays as words beside the pipe that no one reads. A cut then changes no *whole* pipe, and the
//! table of the handshake needs no row for connections that were cut, left or shut. A connection whose end the client
//! was told counts as left.
//!
//! A session's two directions, its epoch and what both ends know of it are kept for each number ever bound; nothing
//! in either core keeps them.
ghost use Rattle.std.specs.Prelude.{Bool, ◌≡◌, ℕ, ◌+◌, ◌≤◌, [], ◌∷◌, List, None, Some, Option, length, true, false};
ghost use Rattle.sm_acks.specs.Delivery.{IsPrefix, Reached};
ghost use Rattle.sim_2_links.specs.Words.{Ack, Down, InOnline, down_stanzas, DownWord, ResumeAt, Resumed, Up, up_stanzas, UpWord};
ghost use Rattle.sim_2_links.specs.Wires.{down_words, is_flowing, up_words};
ghost use Rattle.sim_2_links.specs.Stages.{Conn};
ghost use Rattle.sim_2_links.specs.Views.{carries, has, Own, Row, Session, View};
ghost use Rattle.sim_2_links.specs.EndMoves.{IsTooHigh};
ghost use Rattle.sim_2_links.specs.Events.{Follows, IsSeenAs, LinkEvent, seen};
ghost use Rattle.sim_2_links.specs.Machine.{LinkMove, LinkMoves, LinkReached, LinkReaches, nothing_yet};
ghost use Rattle.sim_2_links.specs.Newest.{newest};
ghost use Rattle.sim_2_links.specs.Onward.{AreOnward};
ghost use Rattle.sim_2_links.specs.Numbers.{IsRising};
ghost use Rattle.sim_2_links.specs.Sums.{said_in, served_in};
ghost use Rattle.sim_2_links.specs.Telling.{Tells};
ghost use Rattle.sim_2_links.specs.Covers.{IsSettled, PromptReached};
ghost use Rattle.sim_2_links.specs.Paging.{course_of, IsInTime, IsShort, Paging, PagingReached};
ghost use Rattle.sim_2_links.specs.Wrong.{binds_beside, resumes_late, sends_all_again, states_acknowledged};
ghost use Rattle.sim_2_links.specs.Promises.{IsClientEnd, IsExpectedDown, IsExpectedUp, IsRead, IsServerEnd, IsTaken, IsWithin};

/// Of each session that a device ever had, both directions are those of acknowledged delivery: what the one end handled
/// is a prefix of what the other end put, and no more is acknowledged than was handled. The server's row and the
/// client's session have the counts and the queues of their ends of it.
pub fn sessions_are_acknowledged_delivery<A>()
    ensures up { (v : View A) → LinkReached v → (p : ℕ) (s : Session A) → v.sessions p ≡ Some s → Reached s.up }
    ensures down { (v : View A) → LinkReached v → (p : ℕ) (s : Session A) → v.sessions p ≡ Some s → Reached s.down }
    ensures handled { (v : View A) → LinkReached v → (p : ℕ) (s : Session A) → v.sessions p ≡ Some s → IsPrefix s.up.got s.up.put × IsPrefix s.down.got s.down.put }
    ensures acked { (v : View A) → LinkReached v → (p : ℕ) (s : Session A) → v.sessions p ≡ Some s → (s.up.acked ≤ length s.up.got) × (s.down.acked ≤ length s.down.got) }
    ensures server { (v : View A) → LinkReached v → (r : Row A) → v.row ≡ Some r → (s : Session A) × (v.sessions r.number ≡ Some s) × IsServerEnd r s }
    ensures client { (v : View A) → LinkReached v → (o : Own A) → v.own ≡ Some o → (s : Session A) × (v.sessions o.number ≡ Some s) × IsClientEnd o s }
{}

/// As the device goes on, each session that it ever had is there under its number still, and keeps the epoch that it has.
/// Each of its directions comes from what it was to what it is by moves of acknowledged delivery.
pub fn sessions_go_on<A>()
    ensures { (moves : List (LinkMove A)) (v next : View A) → LinkReached v → LinkReaches moves v next → AreOnward v.sessions next.sessions }
{}

/// What is under way in a session is what stands in the pipes: up on the connection on which the server counts it, down
/// on the connection that the client works on, where it carries the session.
pub fn what_is_under_way_is_in_the_pipes<A>()
    ensures up { (v : View A) (k : ℕ) (c : Conn A) (r : Row A) → LinkReached v → v.conns k ≡ Some c → v.row ≡ Some r → r.on ≡ Some k → r.counted ≡ true →
        (s : Session A) × (v.sessions r.number ≡ Some s) × (s.up.way ≡ up_stanzas (up_words c.wires)) }
    ensures down { (v : View A) (k p : ℕ) (c : Conn A) → LinkReached v → v.here ≡ Some k → v.conns k ≡ Some c → carries c ≡ Some p →
        (s : Session A) × (v.sessions p ≡ Some s) × (s.down.way ≡ down_stanzas (down_words c.wires)) }
{}

/// A count that comes names a place in its reader's queue, on each connection that the client works on and in each `a`
/// that the server takes. Only a resumption on a connection that the client left can state one that is too high; then
/// the session ends.
pub fn counts_are_too_high_only_where_the_client_left<A>()
    ensures too_high { (v next : View A) (k : ℕ) → LinkReached v → IsTooHigh k v next → (has v.here k ≡ false) × (next.row ≡ None) }
    ensures resumption { (v : View A) (k h : ℕ) (c : Conn A) (r : Row A) (rest : List (UpWord A)) → LinkReached v → v.here ≡ Some k → v.conns k ≡ Some c → v.row ≡ Some r →
        up_words c.wires ≡ ResumeAt r.number h ∷ rest → (s : Session A) × (v.sessions r.number ≡ Some s) × (h ≡ length s.down.got) × IsWithin r.acked r.queue h }
    ensures server { (v : View A) (k h : ℕ) (c : Conn A) (r : Row A) (rest : List (UpWord A)) → LinkReached v → v.conns k ≡ Some c → v.row ≡ Some r → r.on ≡ Some k → r.counted ≡ true →
        up_words c.wires ≡ Up (Ack h) ∷ rest → IsWithin r.acked r.queue h }
    ensures client { (v : View A) (k h : ℕ) (c : Conn A) (o : Own A) (rest : List (DownWord A)) → LinkReached v → v.here ≡ Some k → v.conns k ≡ Some c → v.own ≡ Some o →
        down_words c.wires ≡ Down (Ack h) ∷ rest → IsWithin o.acked o.queue h }
    ensures resumed { (v : View A) (k p h : ℕ) (c : Conn A) (o : Own A) (rest : List (DownWord A)) → LinkReached v → v.here ≡ Some k → v.conns k ≡ Some c → v.own ≡ Some o →
        down_words c.wires ≡ Resumed p h ∷ rest → IsWithin o.acked o.queue h }
{}

/// On the connection that the client dialled last, a resumption states exactly what the client has handled: also where it
/// was told the connection's end, or left it and dialled no other. So a count is too high only behind a newer connection.
pub fn counts_are_too_high_only_after_a_newer_connection<A>()
    ensures stated { (moves : List (LinkMove A)) (v : View A) (k h : ℕ) (c : Conn A) (r : Row A) (rest : List (UpWord A)) → LinkReaches moves nothing_yet v → newest moves None ≡ Some k → v.conns k ≡ Some c → v.row ≡ Some r →
        up_words c.wires ≡ ResumeAt r.number h ∷ rest → (s : Session A) × (v.sessions r.number ≡ Some s) × (h ≡ length s.down.got) × IsWithin r.acked r.queue h }
    ensures too_high { (moves : List (LinkMove A)) (v next : View A) (k : ℕ) → LinkReaches moves nothing_yet v → newest moves None ≡ Some k → IsTooHigh k v next → ⊥ }
{}

/// Each word comes where its reader expects it, so that neither end answers one by ending the stream. The server's
/// stream errors that the client reads are `conflict` and `resource-constraint` (RFC 6120, section 4.9.3), and a footer
/// never comes to it alone. There are moves by which each word is taken from its pipe (`taken`, `read`).
pub fn words_come_where_they_are_expected<A>()
    ensures up { (v : View A) (k : ℕ) (c : Conn A) (w : UpWord A) (rest : List (UpWord A)) → LinkReached v → v.conns k ≡ Some c →
        up_words c.wires ≡ w ∷ rest → IsExpectedUp v k c.phase w }
    ensures down { (v : View A) (k : ℕ) (c : Conn A) (w : DownWord A) (rest : List (DownWord A)) → LinkReached v → v.here ≡ Some k → v.conns k ≡ Some c →
        down_words c.wires ≡ w ∷ rest → IsExpectedDown v c.client w }
    ensures taken { (v : View A) (k : ℕ) (c : Conn A) (w : UpWord A) (rest : List (UpWord A)) → LinkReached v → v.conns k ≡ Some c →
        up_words c.wires ≡ w ∷ rest → IsTaken v k rest }
    ensures read { (v : View A) (k : ℕ) (c : Conn A) (w : DownWord A) (rest : List (DownWord A)) → LinkReached v → v.here ≡ Some k → v.conns k ≡ Some c →
        down_words c.wires ≡ w ∷ rest → IsRead v k rest }
{}

/// Where a connection that the client works on has not ended and nothing stands in its pipes, nothing is outstanding:
/// the client is online, the server has its session there, each end handled all that the other put, and no stanza behind
/// which the client put a request at once waits to be acknowledged.
pub fn empty_pipes_leave_nothing_outstanding<A>()
    ensures { (asks : A → Bool) (v : View A) (k : ℕ) (c : Conn A) → PromptReached asks v → v.here ≡ Some k → v.conns k ≡ Some c → is_flowing c.wires ≡ true →
        up_words c.wires ≡ [] → down_words c.wires ≡ [] → IsSettled asks v k c }
{}

/// The client's queue stays short. Where the client puts a stanza of its user only while fewer than `most` wait, and asks
/// for a page of its history only where the pages before have come to their ends, and where the server ends a page only
/// that was asked for (XEP-0313, section 4), the queue has at most `most` stanzas and two: those beyond are requests for
/// pages, at most two, of which at most one is of a page that ended (`queue`), and they can be two (`reached`). For what
/// is still to come is in time: the end of a page comes behind the count that acknowledges the requests of all pages
/// before (`comes`).
pub fn the_clients_queue_stays_short<A>()
    ensures queue { (p : Paging A) (v : View A) → PagingReached p v → (o : Own A) → v.own ≡ Some o → (s : Session A) × (v.sessions o.number ≡ Some s) × IsShort p o s }
    ensures comes { (p : Paging A) (v : View A) (k : ℕ) (c : Conn A) (o : Own A) → PagingReached p v → v.here ≡ Some k → v.conns k ≡ Some c → v.own ≡ Some o → c.client ≡ InOnline o.number →
        (s : Session A) × (v.sessions o.number ≡ Some s) × IsInTime p c.wires (course_of s) }
    ensures reached { (p : Paging ℕ) × (v : View ℕ) × (o : Own ℕ) × PagingReached p v × (v.own ≡ Some o) × (length o.queue ≡ p.most + 2) }
{}

/// Runs in which stanzas are put with premises are runs of the moves, of which all laws speak.
pub fn runs_with_premises_are_runs<A>()
    ensures prompt { (asks : A → Bool) (v : View A) → PromptReached asks v → LinkReached v }
    ensures paging { (p : Paging A) (v : View A) → PagingReached p v → PromptReached p.asks v }
{}

/// To the applications each move is nothing, or one event of a session: bound, named, counted, known, ended, dropped,
/// or a stanza put or handled by one end, or a count that the client learned; and it comes with what an application may
/// rest on, as that a stanza which is handled is the next one that was put. `Tells` says which event each move is. So what
/// is seen of a session is what the events of its run make of it.
pub fn moves_are_events_of_sessions<A>()
    ensures moves { (move : LinkMove A) (v next : View A) → LinkReached v → LinkMoves move v next → (e : Option (LinkEvent A)) × IsSeenAs e (seen v) (seen next) }
    ensures tells { (move : LinkMove A) (v next : View A) → LinkReached v → LinkMoves move v next → (e : Option (LinkEvent A)) × Tells move v e × IsSeenAs e (seen v) (seen next) }
    ensures runs { (v : View A) → LinkReached v → (es : List (LinkEvent A)) × Follows es (seen nothing_yet) (seen v) }
{}

/// The numbers of sessions rise with their epochs: the session that the server has is the newest, whichever connection
/// bound it; one of which the client will read first that it was bound is above all that have an epoch; and where the
/// server's session has an epoch, that is the client's present one.
pub fn numbers_rise_with_epochs<A>()
    ensures { (v : View A) → LinkReached v → IsRising v }
{}

/// In no session more stanzas are put than the moves say, by the client and by the server. So where these are fewer than
/// 2 ^ 32, no count comes to its modulus, since none is above what was put.
pub fn counts_are_at_most_the_puts<A>()
    ensures { (moves : List (LinkMove A)) (v : View A) → LinkReaches moves nothing_yet v → (p : ℕ) (s : Session A) → v.sessions p ≡ Some s →
        (length s.up.put ≤ said_in moves) × (length s.down.put ≤ served_in moves) }
{}

/// Wrong ends come to where no moves lead: a client that sends its whole queue again without regard to the count that it
/// read; a server that states the acknowledged count where the handled one is due, that resumes a session on a connection
/// which the client left, or that binds a session and leaves the older one on its connection.
pub fn wrong_ends_are_refused()
    ensures all_again { LinkReached sends_all_again → ⊥ }
    ensures acknowledged { LinkReached states_acknowledged → ⊥ }
    ensures late { LinkReached resumes_late → ⊥ }
    ensures beside { LinkReached binds_beside → ⊥ }
{}
