//! Laws of messages that go out live (RFC 6121, section 8.5; XEP-0280).
ghost use Rattle.std.specs.Prelude.{◌≡◌, ◌≢◌, ◌⊎◌, ◌==◌, ℕ, true, false, not, List, [], ◌∷◌, ◌++◌, All, Contains, None, Ok, Option, Some, codes, filter, length};
ghost use Rattle.im_extensions.specs.Given.{is_given_by, is_private};
ghost use Rattle.im_extensions.specs.Carbons.{carbon_name};
ghost use Rattle.im_extensions.specs.Forwarding.{delay_elem};
ghost use Rattle.im_forwarding.specs.Copies.{CopyView, copy_elem};
ghost use Rattle.im_forwarding.specs.Passed.{id_node, passed_elem};
ghost use Rattle.im_payload.specs.Names.{carbons, forwarding};
ghost use Rattle.im_stamp.specs.Dates.{stamp_at};
ghost use Rattle.im_stanza.specs.Kinds.{message_type};
ghost use Rattle.im_stanza.specs.Names.{client_ns, xml_ns};
ghost use Rattle.im_stanza.specs.Stanzas.{attr_named};
ghost use Rattle.im_stanza.specs.Views.{MessageView};
ghost use Rattle.im_stanza.specs.Written.{unless_empty};
ghost use Rattle.im_stanza.specs.declared.kinds.MessageKind.TheVariants.{Chat};
ghost use Rattle.law_server.specs.Copied.{IsCopied, IsForArchives, entry};
ghost use Rattle.law_server.specs.Live.{ArrivesWhereDue, GoesWhereDue, IsOn, copy, delivery};
ghost use Rattle.law_server.specs.Numbers.{HaveNumbers};
ghost use Rattle.law_server.specs.Ready.{IsForUsers, IsReady, IsTaken};
ghost use Rattle.sm_acks.specs.declared.end.TheConstants.{MOST_UNACKNOWLEDGED};
ghost use Rattle.sm_live.specs.Sessions.{Session, session_named, session_of};
ghost use Rattle.srv_core.specs.Events.{at_fault};
ghost use Rattle.srv_core.specs.Table.{after_item, at_open};
ghost use Rattle.srv_route.specs.Destinations.{Bare, Full, destination_of};
ghost use Rattle.srv_state.specs.State.{Out, Put, ServerState, Step};
ghost use Rattle.srv_state.specs.Steps.{Archive, Send, send};
ghost use Rattle.srv_state.specs.Streams.{standing_at};
ghost use Rattle.xml_framer.specs.declared.fault.Fault.{Fault};
ghost use Rattle.xml_framer.specs.declared.items.Item.{Item};
ghost use Rattle.xml_trees.specs.Readers.{attr_of, elements_of, is_named, text_of};
ghost use Rattle.xml_trees.specs.Trees.{element, no_nodes, child, nodes_of};
ghost use Rattle.xml_writer.specs.Items.{ItemOut};

/// A law: a message goes to no third account. What an item leads to goes to its own connection and to the session on it,
/// but for these: the message that it is, which goes to sessions of the account that it is to; copies of it as received,
/// which go to sessions of that account, and as sent, to sessions of the account that sent it, each of which asked for
/// copies (RFC 6121, section 8.5; XEP-0280, sections 7 and 8); and what ends another connection's stream, which tells
/// nothing of a message. What goes out is that very message: from the full address of the session that sent it (RFC 6120,
/// section 8.1.2.1), with the number under which the account's archive gets it. A fault of the stream puts on its own
/// connection alone. Sessions have numbers of their own, as `servers_stay_sound` says.
pub fn messages_go_to_their_accounts<A>()
    ensures item { (say : ItemOut → A) (k : ℕ) (i : Item) (h : ServerState A) → HaveNumbers h → All (GoesWhereDue say k i h) (at_open say k i (standing_at k h) h) }
    ensures fault { (say : ItemOut → A) (k : ℕ) (i : Item) (f : Fault) (h : ServerState A) → All (GoesWhereDue say k i h) (at_fault say k f (standing_at k h) h) }
{}

/// A law: so each connection gets what is for its session. What an item puts goes to its own connection, ends a stream,
/// asks for a count (XEP-0198, section 4), or is live of the message that the item is, for the session on the connection
/// that gets it: a session of the account that the message is to, or, for a copy as sent, of the one that sent it.
pub fn connections_get_what_is_theirs<A>()
    ensures { (say : ItemOut → A) (k : ℕ) (i : Item) (s : Step A) → HaveNumbers s.server_state → (more : List (Out A)) × ((after_item say k i s).outs ≡ s.outs ++ more) × All (ArrivesWhereDue say k i s.server_state) more }
{}

/// A law: what is passed on of a message is that message. It has its addresses, its id, its type and its language, and of
/// what it contains all texts and all elements, the bodies among them, in their order, but for ids that a client may take
/// for ones that the account gave; last comes the id of the account's archive, where that has the message (XEP-0359,
/// section 5).
pub fn what_is_passed_on_is_the_message()
    ensures named { (by : List ℕ) (number : Option ℕ) (m : MessageView) → is_named client_ns (codes "message") (passed_elem by number m) ≡ true }
    ensures from { (by : List ℕ) (number : Option ℕ) (m : MessageView) → attr_named (codes "from") (passed_elem by number m) ≡ m.from }
    ensures to { (by : List ℕ) (number : Option ℕ) (m : MessageView) → attr_named (codes "to") (passed_elem by number m) ≡ m.to }
    ensures id { (by : List ℕ) (number : Option ℕ) (m : MessageView) → attr_named (codes "id") (passed_elem by number m) ≡ unless_empty m.id }
    ensures kind { (by : List ℕ) (number : Option ℕ) (m : MessageView) → attr_named (codes "type") (passed_elem by number m) ≡ Some (message_type m.kind) }
    ensures lang { (by : List ℕ) (number : Option ℕ) (m : MessageView) → attr_of xml_ns (codes "lang") (passed_elem by number m) ≡ unless_empty m.lang }
    ensures texts { (by : List ℕ) (number : Option ℕ) (m : MessageView) → text_of (nodes_of (passed_elem by number m)) ≡ text_of m.payload }
    ensures elements { (by : List ℕ) (number : Option ℕ) (m : MessageView) → elements_of (nodes_of (passed_elem by number m)) ≡ filter (λ e. not (is_given_by by e)) (elements_of m.payload) ++ elements_of (id_node by number) }
    ensures bodies { (by : List ℕ) (number : Option ℕ) (m : MessageView) → filter (is_named client_ns (codes "body")) (elements_of (nodes_of (passed_elem by number m))) ≡ filter (is_named client_ns (codes "body")) (elements_of m.payload) }
{}

/// A law: a copy has the message. It is a message from the account's bare address to the session that gets it, of the
/// type of the message, and contains one element, `sent` or `received`, around `forwarded`, which has the moment and the
/// message as it is passed on (XEP-0280, sections 7 and 8; XEP-0297, section 3).
pub fn copies_have_the_message()
    ensures named { (c : CopyView) (full : List ℕ) → is_named client_ns (codes "message") (copy_elem c full) ≡ true }
    ensures from { (c : CopyView) (full : List ℕ) → attr_named (codes "from") (copy_elem c full) ≡ Some c.by }
    ensures to { (c : CopyView) (full : List ℕ) → attr_named (codes "to") (copy_elem c full) ≡ Some full }
    ensures kind { (c : CopyView) (full : List ℕ) → attr_named (codes "type") (copy_elem c full) ≡ Some (message_type c.message.kind) }
    ensures contains { (c : CopyView) (full : List ℕ) → nodes_of (copy_elem c full)
        ≡ child (element carbons (carbon_name c.sent) [] (child (element forwarding (codes "forwarded") [] (child (delay_elem (stamp_at c.moment)) (child (passed_elem c.by c.number c.message) no_nodes))) no_nodes)) no_nodes }
{}

/// A law: each session that a message is for is sent it. One to the bare address of an account is sent to each session of
/// it that is available with a priority that is not negative, where it is of a type for users (RFC 6121, section 8.5.2.1);
/// one to a session's full address to that session, whatever its type (section 8.5.3.1); and a chat to a resource that no
/// session has to those that it would be sent to at the bare address (section 8.5.3.2.1). Both archives can take an entry.
pub fn messages_reach_their_sessions<A>()
    ensures bare { (say : ItemOut → A) (k : ℕ) (i : Item) (h : ServerState A) (sender t : Session A) (m : MessageView) (account : ℕ) → IsTaken k i h sender m account
        → destination_of h.domain h.accounts sender.shown.account m.to ≡ Bare account → IsForUsers m.kind → IsReady h account t
        → Contains (at_open say k i (standing_at k h) h) (Send t.shown.number (say (delivery sender m account h))) }
    ensures full { (say : ItemOut → A) (k : ℕ) (i : Item) (h : ServerState A) (sender t : Session A) (m : MessageView) (account : ℕ) (resource : List ℕ) → IsTaken k i h sender m account
        → destination_of h.domain h.accounts sender.shown.account m.to ≡ Full account resource → session_named account resource h.sessions ≡ Some t → session_of t.shown.number h.sessions ≡ Some t
        → Contains (at_open say k i (standing_at k h) h) (Send t.shown.number (say (delivery sender m account h))) }
    ensures absent { (say : ItemOut → A) (k : ℕ) (i : Item) (h : ServerState A) (sender t : Session A) (m : MessageView) (account : ℕ) (resource : List ℕ) → IsTaken k i h sender m account
        → destination_of h.domain h.accounts sender.shown.account m.to ≡ Full account resource → session_named account resource h.sessions ≡ None → m.kind ≡ Chat → IsReady h account t
        → Contains (at_open say k i (standing_at k h) h) (Send t.shown.number (say (delivery sender m account h))) }
{}

/// A law: what is sent to a session is put on its connection, where it has one, and where its stanzas are counted it waits
/// in the session, behind what waited there (XEP-0198, section 4), unless as many wait as may. Nothing that comes of it is
/// put on another connection, and it waits in no other session.
pub fn what_is_sent_is_put<A>()
    ensures put { (say : ItemOut → A) (n j : ℕ) (a : A) (t : Session A) (s : Step A) → session_of n s.server_state.sessions ≡ Some t → t.shown.conn ≡ Some j → (t.shown.counted ≡ false) ⊎ (length t.waiting ≢ MOST_UNACKNOWLEDGED)
        → (more : List (Out A)) × ((send say n a s).outs ≡ s.outs ++ Put j a ∷ more) }
    ensures waits { (say : ItemOut → A) (n : ℕ) (a : A) (t : Session A) (s : Step A) → session_of n s.server_state.sessions ≡ Some t → t.shown.counted ≡ true → length t.waiting ≢ MOST_UNACKNOWLEDGED
        → (u : Session A) × (session_of n (send say n a s).server_state.sessions ≡ Some u) × (u.waiting ≡ t.waiting ++ a ∷ []) }
    ensures only { (say : ItemOut → A) (n : ℕ) (a : A) (t : Session A) (s : Step A) → session_of n s.server_state.sessions ≡ Some t
        → (more : List (Out A)) × ((send say n a s).outs ≡ s.outs ++ more) × All (IsOn t.shown.conn) more }
    ensures others { (say : ItemOut → A) (m n : ℕ) (a : A) (t : Session A) (s : Step A) → session_of n s.server_state.sessions ≡ Some t → (m == n) ≡ false → (t.shown.counted ≡ false) ⊎ (length t.waiting ≢ MOST_UNACKNOWLEDGED)
        → session_of m (send say n a s).server_state.sessions ≡ session_of m s.server_state.sessions }
{}

/// A law: what users say is archived. A chat or a normal message with a body, to an account that exists, goes into the archive
/// of the account that sent it and into that of the account that it is to, whatever its size (XEP-0313, section 5). Both
/// archives can take an entry.
pub fn messages_are_archived<A>()
    ensures senders { (say : ItemOut → A) (k : ℕ) (i : Item) (h : ServerState A) (sender : Session A) (m : MessageView) (account : ℕ) → HaveNumbers h → IsTaken k i h sender m account → IsForArchives m
        → Contains (at_open say k i (standing_at k h) h) (Archive sender.shown.account (entry sender m h)) }
    ensures addressees { (say : ItemOut → A) (k : ℕ) (i : Item) (h : ServerState A) (sender : Session A) (m : MessageView) (account : ℕ) → HaveNumbers h → IsTaken k i h sender m account → IsForArchives m
        → Contains (at_open say k i (standing_at k h) h) (Archive account (entry sender m h)) }
{}

/// A law: each session that asked for copies gets them. Of a message that is archived and isn't private, to another account,
/// each other session of the account that sent it is sent a copy as sent, and each session of the account that it is to is
/// sent the message itself or a copy as received (XEP-0280, sections 6 to 8).
pub fn copies_reach_their_sessions<A>()
    ensures sent { (say : ItemOut → A) (k : ℕ) (i : Item) (h : ServerState A) (sender t : Session A) (m : MessageView) (account : ℕ) → HaveNumbers h → IsTaken k i h sender m account → IsForArchives m
        → is_private m.payload ≡ false → sender.shown.account ≢ account → IsCopied h sender t → t.shown.account ≡ sender.shown.account
        → Contains (at_open say k i (standing_at k h) h) (Send t.shown.number (say (copy true sender m sender.shown.account t h))) }
    ensures received { (say : ItemOut → A) (k : ℕ) (i : Item) (h : ServerState A) (sender t : Session A) (m : MessageView) (account : ℕ) → HaveNumbers h → IsTaken k i h sender m account → IsForArchives m
        → is_private m.payload ≡ false → sender.shown.account ≢ account → IsCopied h sender t → t.shown.account ≡ account
        → Contains (at_open say k i (standing_at k h) h) (Send t.shown.number (say (delivery sender m account h)))
        ⊎ Contains (at_open say k i (standing_at k h) h) (Send t.shown.number (say (copy false sender m account t h))) }
{}
