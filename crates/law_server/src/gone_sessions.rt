//! The laws on sessions that have ended for good (XEP-0198, sections 4 and 5).
ghost use Rattle.std.specs.Prelude.{◌≡◌, ◌^◌, ◌≤◌, ℕ, true, false, List, None, Some, IfSome};
ghost use Rattle.xml_framer.specs.declared.items.Item.{Item};
ghost use Rattle.xml_framer.specs.declared.items.Item.TheVariants.{Element};
ghost use Rattle.srv_state.specs.State.{Out, Step};
ghost use Rattle.srv_state.specs.Steps.{in_sessions, part, part_where, put, shut};
ghost use Rattle.srv_state.specs.Words.{word_of};
ghost use Rattle.srv_state.specs.declared.word.Word.TheVariants as word;
ghost use Rattle.sm_live.specs.Rule.{IsRule};
ghost use Rattle.sm_live.specs.Sessions.{Session, is_at, is_too_high, send_count, session_of, session_resumed, without};
ghost use Rattle.sm_resumption.specs.Previds.{previd_of};
ghost use Rattle.im_replies.specs.Management.{refused_item};
ghost use Rattle.im_replies.specs.Streams.{error_item, too_high_item};
ghost use Rattle.im_replies.specs.declared.conditions.StreamCondition.TheVariants.{Conflict};
ghost use Rattle.im_stanza.specs.declared.conditions.Condition.TheVariants.{ItemNotFound};
ghost use Rattle.srv_core.specs.Events.{IsAfterBytes, Stops, Whole, framer_at};
ghost use Rattle.srv_core.specs.Table.{after_item, after_items};
ghost use Rattle.law_server.specs.Events as event;
ghost use Rattle.law_server.specs.Events.{Event, Run, after_event, after_events, run, stand_of};
ghost use Rattle.law_server.specs.Gone.{EndsAlone, IsGone, IsLoggedIn};
ghost use Rattle.law_server.specs.Numbers.{HaveNumbers};
ghost use Rattle.xml_trees.specs.Trees.{Elem};
ghost use Rattle.xml_writer.specs.Items.{ItemOut};

/// A law: what the contracts of a server's calls say of bytes is an event of the table, so that laws over events are laws of
/// servers: where bytes were taken over it is that event, and where memory ran out within them they stopped behind some
/// item. (The other calls are events word for word, and one that is refused changes nothing.)
pub fn events_are_those_of_the_server<A>()
    ensures taken { (say : ItemOut → A) (k : ℕ) (piece : List ℕ) (now : ℕ) (old : Whole A) (outs : List (Out A)) (new : Whole A) (new_outs : List (Out A))
        → IsAfterBytes say k piece now old outs new new_outs → run new new_outs ≡ after_event say (event.Bytes k piece now) (run old outs) }
    ensures stopped { (say : ItemOut → A) (k : ℕ) (piece : List ℕ) (now : ℕ) (old : Whole A) (outs : List (Out A)) (new : Whole A) (new_outs : List (Out A))
        → Stops say k piece now (framer_at k old.framers) old outs new new_outs → (done : ℕ) × (run new new_outs ≡ after_event say (event.Stop k piece done now) (run old outs)) }
{}

/// A law: a session that was on a connection which the server shut is gone, for good (XEP-0198, section 5). No session has
/// its number behind that, whatever items and events follow, since the number of the next session never falls; and a
/// `resume` that names it, on a connection that is logged in and has no session, as whichever account, is answered by
/// `failed` with `item-not-found`, and by nothing else (`refused`), however many events later (`never`). What is found for a `resume` right behind the shut is not on that
/// connection, whatever names it (`elsewhere`). Of servers the numbers of sessions rise (`servers_stay_sound`), and the next
/// one is below 2^64 (`keeps_rule` of `Server`).
pub fn a_shut_session_is_gone<A>()
    ensures shut { (k n : ℕ) (t : Session A) (s : Step A) → HaveNumbers s.server_state → session_of n s.server_state.sessions ≡ Some t → is_at k t ≡ true → IsGone n (shut k s).server_state }
    ensures elsewhere { (k account : ℕ) (previd : List ℕ) (s : Step A) → IfSome (session_resumed previd account (shut k s).server_state.sessions) (λ found. is_at k found ≡ false) }
    ensures items { (say : ItemOut → A) (k n : ℕ) (items : List Item) (s : Step A) → IsGone n s.server_state → IsGone n (after_items say k items s).server_state }
    ensures events { (say : ItemOut → A) (n : ℕ) (events : List Event) (r : Run A) → IsGone n r.server.server_state → IsGone n (after_events say events r).server.server_state }
    ensures rises { (say : ItemOut → A) (k : ℕ) (items : List Item) (s : Step A) → s.server_state.next ≤ (after_items say k items s).server_state.next }
    ensures refused { (say : ItemOut → A) (k account n h : ℕ) (e : Elem) (s : Step A) → IsGone n s.server_state → HaveNumbers s.server_state → s.server_state.next ≤ 2 ^ 64 → IsLoggedIn k account None s.server_state → word_of e ≡ word.Resume (previd_of n) h
        → after_item say k (Element e) s ≡ put k (say (refused_item ItemNotFound)) s }
    ensures never { (say : ItemOut → A) (k account n h : ℕ) (e : Elem) (events : List Event) (r : Run A) → IsGone n r.server.server_state → HaveNumbers r.server.server_state → (after_events say events r).server.server_state.next ≤ 2 ^ 64
        → IsLoggedIn k account None (after_events say events r).server.server_state → word_of e ≡ word.Resume (previd_of n) h
        → after_item say k (Element e) (stand_of (after_events say events r)) ≡ put k (say (refused_item ItemNotFound)) (stand_of (after_events say events r)) }
{}

/// A law: a count above what was sent ends its session for good, and no other. Stated by an `a` (XEP-0198, section 4), it
/// ends the stream with `undefined-condition` and `handled-count-too-high`, which tells the count and how many stanzas were
/// sent. Stated by a `resume` (section 5), it ends so the stream on which it came, and then with `conflict` that of the
/// connection that the session had, where it had one. Nothing else happens: the session isn't resumed, and nothing is sent
/// again.
pub fn a_count_that_is_too_high_ends_its_session<A>()
    ensures ack { (say : ItemOut → A) (k account h : ℕ) (e : Elem) (t : Session A) (s : Step A) → HaveNumbers s.server_state → IsLoggedIn k account (Some t) s.server_state → t.shown.counted ≡ true → word_of e ≡ word.Ack h → is_too_high h t ≡ true
        → (after_item say k (Element e) s ≡ part say k (say (too_high_item h (send_count t))) s) × IsGone t.shown.number (after_item say k (Element e) s).server_state }
    ensures resume { (say : ItemOut → A) (k account h : ℕ) (previd : List ℕ) (e : Elem) (t : Session A) (s : Step A) → HaveNumbers s.server_state → IsLoggedIn k account None s.server_state → session_resumed previd account s.server_state.sessions ≡ Some t
        → word_of e ≡ word.Resume previd h → is_too_high h t ≡ true
        → (after_item say k (Element e) s ≡ part_where say t.shown.conn (say (error_item Conflict)) (part say k (say (too_high_item h (send_count t))) (in_sessions (without t.shown.number) s)))
        × IsGone t.shown.number (after_item say k (Element e) s).server_state }
    ensures ack_alone { (say : ItemOut → A) (k account h : ℕ) (e : Elem) (t : Session A) (s : Step A) → IsRule s.server_state.sessions s.server_state.next → IsLoggedIn k account (Some t) s.server_state → t.shown.counted ≡ true → word_of e ≡ word.Ack h → is_too_high h t ≡ true
        → EndsAlone t.shown.number s.server_state (after_item say k (Element e) s).server_state }
    ensures resume_alone { (say : ItemOut → A) (k account h : ℕ) (previd : List ℕ) (e : Elem) (t : Session A) (s : Step A) → IsRule s.server_state.sessions s.server_state.next → IsLoggedIn k account None s.server_state → session_resumed previd account s.server_state.sessions ≡ Some t
        → word_of e ≡ word.Resume previd h → is_too_high h t ≡ true → EndsAlone t.shown.number s.server_state (after_item say k (Element e) s).server_state }
{}
