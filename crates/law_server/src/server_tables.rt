//! The laws.
ghost use Rattle.std.specs.Prelude.{◌≡◌, ◌==◌, ◌↔◌, ℕ, ◌*◌, ◌-◌, ◌≤◌, ◌++◌, true, false, [], All, List, None, Some, IsSome};
ghost use Rattle.xml_framer.specs.States.{State};
ghost use Rattle.xml_framer.specs.declared.fault.Fault.{Fault};
ghost use Rattle.xml_framer.specs.declared.items.Item.{Item};
ghost use Rattle.srv_state.specs.State.{ServerState, Step, archive_at, conn_at, is_number};
ghost use Rattle.srv_state.specs.Steps.{acted, part, shut};
ghost use Rattle.sm_live.specs.Sessions.{Session, is_at, is_expired, is_too_high, send_count, session_of, with_session};
ghost use Rattle.sm_live.specs.declared.told.SessionInfo.{SessionInfo};
ghost use Rattle.sm_resumption.specs.declared.answers.TheConstants.{RESUMABLE_SECONDS};
ghost use Rattle.im_replies.specs.Management.{resumable_item};
ghost use Rattle.im_replies.specs.Streams.{too_high_item};
ghost use Rattle.srv_handlers.specs.Requests.{at_iq, envelope_of};
ghost use Rattle.srv_handlers.specs.Managements.{at_ack, enabled_as};
ghost use Rattle.srv_core.specs.Events.{at_piece, turn_of};
ghost use Rattle.srv_core.specs.Table.{after_items};
ghost use Rattle.law_server.specs.Answering.{IsAnswered, IsOf};
ghost use Rattle.law_server.specs.Pieces.{left_open};
ghost use Rattle.law_server.specs.Rendered.{rendered, step_rendered};
ghost use Rattle.im_stanza.specs.Views.{IqView};
ghost use Rattle.im_stanza.specs.declared.kinds.IqKind.TheVariants.{Error, Get, Result, Set};
ghost use Rattle.xml_writer.specs.Items.{ItemOut};

/// A law: the table is the same however what is put is written. Where each thing that is put is turned into another, in
/// queues, in outputs and in what rows say, what comes of items is what came of them before, turned so. With items for
/// what is put, and `written_item` for the turn: what the server puts is the writing of what it would put as items.
pub fn table_is_the_same_however_written<A, B>()
    ensures { (f : A → B) (say : ItemOut → A) (k : ℕ) (items : List Item) (s : Step A) → after_items (rendered f say) k items (step_rendered f s) ≡ step_rendered f (after_items say k items s) }
{}

/// A law: a count above what was sent (XEP-0198, section 4) changes no count and no queue. The stream ends with the
/// error that tells the count and how many stanzas were sent, and of the sessions only that on the connection ends.
pub fn too_high_counts_change_no_queue<A>()
    ensures { (say : ItemOut → A) (k h : ℕ) (t : SessionInfo) (old : Session A) (s : Step A) → session_of t.number s.server_state.sessions ≡ Some old → t.counted ≡ true → is_too_high h old ≡ true
        → acted say (at_ack say k h t s.server_state) s ≡ part say k (say (too_high_item h (send_count old))) s }
{}

/// A law: what an `iq` leads to is of the session that sent it alone. No other session is sent anything, and nothing of
/// it is changed.
pub fn requests_are_of_their_session<A>()
    ensures { (say : ItemOut → A) (q : IqView) (t : SessionInfo) (h : ServerState A) → All (IsOf t.number) (at_iq say q t h) }
{}

/// A law: each `iq` of type `get` or `set` is answered, behind all else that it leads to, by a result or an error with
/// its id, from where it was to and to the full address of the session; results and errors are not (RFC 6120, section
/// 8.2.3).
pub fn each_request_is_answered<A>()
    ensures get { (say : ItemOut → A) (q : IqView) (t : SessionInfo) (h : ServerState A) → IsSome (archive_at t.account h) → q.kind ≡ Get → IsAnswered say t.number (envelope_of q t h) (at_iq say q t h) }
    ensures set { (say : ItemOut → A) (q : IqView) (t : SessionInfo) (h : ServerState A) → IsSome (archive_at t.account h) → q.kind ≡ Set → IsAnswered say t.number (envelope_of q t h) (at_iq say q t h) }
    ensures result { (say : ItemOut → A) (q : IqView) (t : SessionInfo) (h : ServerState A) → q.kind ≡ Result → at_iq say q t h ≡ [] }
    ensures error { (say : ItemOut → A) (q : IqView) (t : SessionInfo) (h : ServerState A) → q.kind ≡ Error → at_iq say q t h ≡ [] }
{}

/// A law: what an `iq` leads to depends on nothing but the domain, the accounts, the session itself and the archive of
/// its own account. So no answer tells of another account's archive, or of another session.
pub fn answers_tell_of_ones_own<A>()
    ensures { (say : ItemOut → A) (q : IqView) (t : SessionInfo) (h u : ServerState A) → h.domain ≡ u.domain → h.accounts ≡ u.accounts → archive_at t.account h ≡ archive_at t.account u
        → session_of t.number h.sessions ≡ session_of t.number u.sessions → at_iq say q t h ≡ at_iq say q t u }
{}

/// A law: how the bytes of a stream are cut into pieces doesn't matter. What comes of two pieces, one after the other,
/// is what comes of both in one, and behind a fault of the stream nothing more comes. (A connection that was shut has
/// no framer, and what is left of its bytes is not looked at.)
pub fn pieces_join<A>()
    ensures sound { (say : ItemOut → A) (k : ℕ) (a b : List ℕ) (f : State) (s : Step A) → (turn_of a f).state.fault ≡ None
        → at_piece say k (a ++ b) (Some f) s ≡ at_piece say k b (left_open k (turn_of a f).state (at_piece say k a (Some f) s)) (at_piece say k a (Some f) s) }
    ensures fault { (say : ItemOut → A) (k : ℕ) (a b : List ℕ) (f : State) (e : Fault) (s : Step A) → (turn_of a f).state.fault ≡ Some e → at_piece say k (a ++ b) (Some f) s ≡ at_piece say k a (Some f) s }
{}

/// A law: what the small steps leave as it was. The end of a connection changes no other connection, and no session
/// that is not on it; and a step that changes one session changes no other.
pub fn steps_leave_others<A>()
    ensures connections { (k j : ℕ) (s : Step A) → is_number k j ≡ false → conn_at k (shut j s).server_state ≡ conn_at k s.server_state }
    ensures sessions { (n j : ℕ) (t : Session A) (s : Step A) → session_of n s.server_state.sessions ≡ Some t → is_at j t ≡ false → session_of n (shut j s).server_state.sessions ≡ Some t }
    ensures others { (m n : ℕ) (f : Session A → Session A) (ss : List (Session A)) → ((s : Session A) → (f s).shown.number ≡ s.shown.number) → (m == n) ≡ false → session_of m (with_session n f ss) ≡ session_of m ss }
{}

/// A law: the resumption time that is told is kept (XEP-0198, section 5). What answers an `enable` that wants to resume tells
/// so many seconds, and a session that lost its connection ends when so many seconds have passed since, and not before.
pub fn a_resumption_time_that_is_told_is_kept<A>()
    ensures told { (number : ℕ) → enabled_as number true ≡ resumable_item number RESUMABLE_SECONDS }
    ensures kept { (now : ℕ) (s : Session A) → s.shown.conn ≡ None → (is_expired now s ≡ true) ↔ (1000 * RESUMABLE_SECONDS ≤ now - s.shown.parked_at) }
{}
