//! The laws.
//!
//! Laws of the client's table are proved over the parts that its rows are made of (`law_client`, `Parts.antt`): the
//! table is gone through once, for any relation that stays, joins and holds of each part. A new row is one more walk;
//! a new law needs none. Laws hold over lists of calls, in which want of memory within a piece is a call of its own.
ghost use Rattle.std.specs.Prelude.{◌≡◌, ◌-◌, ◌%◌, ◌^◌, ◌<◌, ◌≤◌, ◌+◌, ℕ, Bool, List, [], Ok, Option, Some, false, length};
ghost use Rattle.sm_acks.specs.Delivery.{Acknowledge, Direction, Handle, Moves, Put, Reached, Resume, beginning};
ghost use Rattle.mam_archive.specs.Ids.{id_of};
ghost use Rattle.cl_core.specs.Feeds.{Fed, IsMemoryLost};
ghost use Rattle.cl_core.specs.Making.{fresh};
ghost use Rattle.cl_core.specs.PageRows.{next_queryid, page_done, requests};
ghost use Rattle.cl_core.specs.Steps.{handles, items_run};
ghost use Rattle.cl_core.specs.UserCalls.{catch_up_answer, catches_up, say_answer, says};
ghost use Rattle.law_client.specs.Calls.{Call, CatchUp, Cut, Say, called, calls_run, first_client};
ghost use Rattle.law_client.specs.CatchUps.{FollowFrom, TakesPages, pages_for, query_after};
ghost use Rattle.law_client.specs.Directed.{IsDirected, IsResumed};
ghost use Rattle.law_client.specs.Logs.{FollowUnbroken, GrewByPages, IsLogKept};
ghost use Rattle.law_client.specs.Noted.{IsNoted};
ghost use Rattle.law_client.specs.Standing.{Stands, SubmissionsWait};
ghost use Rattle.law_client.specs.Rendered.{IsRendered, fed_rendered, turn_rendered, written, written_fed};
ghost use Rattle.cl_handlers.specs.AckRows.{ack_row};
ghost use Rattle.cl_handlers.specs.Clients.{ClientStep, ClientView};
ghost use Rattle.cl_handlers.specs.SessionRows.{begins, resumed_row};
ghost use Rattle.cl_handlers.specs.Speech.{Note, Speech, in_bytes, in_items};
ghost use Rattle.cl_handlers.specs.ClientSteps.{put_in};
ghost use Rattle.cl_handlers.specs.declared.account.Account.{Account};
ghost use Rattle.xml_framer.specs.declared.items.Item.{Item};
ghost use Rattle.mam_log.specs.LogPages.{FollowsOn, LogPage};
ghost use Rattle.mam_log.specs.Views.{OpenPage, fin_answer};
ghost use Rattle.mam_log.specs.declared.fin.PageOutcome.TheVariants.{More};
ghost use Rattle.mam_log.specs.declared.log_entry.LogEntry.{LogEntry};
ghost use Rattle.sm_outbox.specs.Directions.{Receives, Sends};
ghost use Rattle.sm_outbox.specs.Sessions.{SessionView};
ghost use Rattle.sm_outbox.specs.Waiting.{count_true, is_full};
ghost use Rattle.mam_pages.specs.Cuts.{CutView, fin_of};
ghost use Rattle.mam_pages.specs.Kept.{Kept};
ghost use Rattle.mam_pages.specs.PageOf.{page_of};
ghost use Rattle.mam_pages.specs.Spans.{IsNumbered};
ghost use Rattle.mam_pages.specs.declared.fin.Fin.{Fin};
ghost use Rattle.im_requests.specs.Sessions.{available_item, carbons_item};
ghost use Rattle.xml_trees.specs.Trees.{Elem};
ghost use Rattle.xml_writer.specs.Items.{ItemOut};

use mam_pages::MOST_RESULTS;
use sm_acks::MOST_UNACKNOWLEDGED;

/// A law: where a client is online, or awaits the answer to a resumption, its session stands; where it binds a resource
/// none does; a page is open only where one stands; and at most 10,000 stanzas wait (XEP-0198, sections 3 to 5). It holds
/// before the first connection, and whatever items come and whatever is called it holds behind them.
pub fn a_session_stands_online<A, X>()
    ensures new { (account : Account) → (fresh account).client ≡ first_client account }
    ensures begins { (account : Account) → Stands (first_client {A = A} account) }
    ensures items { (speech : Speech A X) (items : List Item) (t : ClientStep A X) → Stands t.client → Stands (items_run speech t items).client }
    ensures calls { (speech : Speech A X) (calls : List Call) (f : Fed A X) → Stands f.turn.client → Stands (calls_run speech calls f).turn.client }
{}

/// A law: the session is one end of acknowledged delivery in both directions (XEP-0198, sections 4 and 5). It begins with
/// two stanzas that are put; a stanza more that is put, or handled, is that move of its direction, and leaves the other as
/// it was; so is a count that was stated and that is taken, and a resumption, which puts again all that is under way then.
pub fn queues_are_directions<A, X>()
    ensures begins { (speech : Speech A X) (t : ClientStep A X) (previd : List ℕ) (first second : Direction A) → Moves (Put (speech.say carbons_item)) beginning first → Moves (Put (speech.say available_item)) first second
        → IsDirected (begins speech t previd).client second beginning }
    ensures puts { (speech : Speech A X) (t : ClientStep A X) (s : SessionView A) (stanza : A) (kind : Bool) (sent got next : Direction A) → Sends s.waiting sent → Receives s.waiting got → Moves (Put stanza) sent next
        → IsDirected (put_in speech t s stanza kind).client next got }
    ensures requests { (speech : Speech A X) (t : ClientStep A X) (s : SessionView A) (stanza : A) (kind : Bool) (sent got next : Direction A) → Sends s.waiting sent → Receives s.waiting got → Moves (Put stanza) sent next
        → IsDirected (requests speech t s stanza kind).client next got }
    ensures handles { (speech : Speech A X) (t : ClientStep A X) (s : SessionView A) (e : Elem) (sent got next : Direction A) → Sends s.waiting sent → Receives s.waiting got → Moves Handle got next
        → IsDirected (handles speech t s e).client sent next }
    ensures acknowledges { (speech : Speech A X) (t : ClientStep A X) (s : SessionView A) (h n : ℕ) (sent got next : Direction A) → length s.waiting.queue ≤ MOST_UNACKNOWLEDGED → Reached sent → Sends s.waiting sent → Receives s.waiting got
        → Moves (Acknowledge n) sent next → h ≡ n % 2 ^ 32 → IsDirected (ack_row speech t s h).client next got }
    ensures resumes { (speech : Speech A X) (t : ClientStep A X) (s : SessionView A) (h : ℕ) (sent got next : Direction A) → length s.waiting.queue ≤ MOST_UNACKNOWLEDGED → Reached sent → Sends s.waiting sent → Receives s.waiting got
        → Moves Resume sent next → h ≡ length sent.got % 2 ^ 32 → IsResumed speech t (resumed_row speech t s h) next got }
{}

/// A law: a catch-up goes on, and an archive that is asked so comes to an end. Behind a page that isn't the last the client
/// asks for the next one behind the entry that the archive told as its last (`next`). The others are of an archive alone, of
/// the pages that it cuts for such queries, each behind the last entry of the one before: where it answers as XEP-0313 has
/// it, that is a later entry than the one before (`later`), and where it doesn't grow meanwhile the pages are exactly as many
/// as the missing entries make, and one where none is missing (`takes`, `exactly`).
pub fn pages_advance<A, X>()
    ensures next { (speech : Speech A X) (t : ClientStep A X) (s : SessionView A) (page : OpenPage) (fin : Fin) → t.client.session ≡ Some s → is_full s.waiting ≡ false → fin_answer t.client.log page.queryid fin ≡ Ok More
        → (page_done speech t page fin More).client.log.page ≡ Some (record { queryid = next_queryid t; max = page.max; after = fin.last; results = [] }) }
    ensures later { (kept : Kept) (after : Option (List ℕ)) (most first last base : ℕ) (cut : CutView) → IsNumbered first last kept.entries → last < 2 ^ 64 → 1 ≤ most → most ≤ MOST_RESULTS → FollowFrom first last after base
        → page_of kept (query_after after most) ≡ Some cut → cut.complete ≡ false → (base + most < last) × ((fin_of cut).last ≡ Some (id_of (base + most))) }
    ensures takes { (kept : Kept) (after : Option (List ℕ)) (most first last base : ℕ) → IsNumbered first last kept.entries → last < 2 ^ 64 → 1 ≤ most → most ≤ MOST_RESULTS → FollowFrom first last after base
        → TakesPages kept most after (pages_for (last - base) most) }
    ensures exactly { (kept : Kept) (after : Option (List ℕ)) (most first last base n : ℕ) → IsNumbered first last kept.entries → last < 2 ^ 64 → 1 ≤ most → most ≤ MOST_RESULTS → FollowFrom first last after base
        → TakesPages kept most after n → n ≡ pages_for (last - base) most }
{}

/// A law: whatever is called and whatever the server's bytes are, the log is made of pages that were taken over, in which no
/// id stands twice; each was asked for behind the last entry before it, but for those at which the log breaks. The ids of
/// the messages that are held differ, and none of these is in the log.
pub fn logs_are_tiled<A, X>()
    ensures begins { (account : Account) → IsLogKept (first_client {A = A} account).log }
    ensures items { (speech : Speech A X) (items : List Item) (t : ClientStep A X) → IsLogKept t.client.log → IsLogKept (items_run speech t items).client.log }
    ensures calls { (speech : Speech A X) (calls : List Call) (f : Fed A X) → IsLogKept f.turn.client.log → IsLogKept (calls_run speech calls f).turn.client.log }
    ensures breaks { (before : List LogEntry) (pages : List LogPage) → FollowsOn before pages → FollowUnbroken before pages }
{}

/// A law: a page is taken over whole, or not at all (XEP-0313, section 4.3). What items and calls add to a log are the
/// results of pages whose ends were judged well, and the entries before them stay as they were.
pub fn logs_grow_by_pages<A, X>()
    ensures items { (speech : Speech A X) (items : List Item) (t : ClientStep A X) → GrewByPages t.client.log (items_run speech t items).client.log }
    ensures calls { (speech : Speech A X) (calls : List Call) (f : Fed A X) → GrewByPages f.turn.client.log (calls_run speech calls f).turn.client.log }
{}

/// A law: the table is the same however what is put is written. Where each thing that is queued is turned into another, and
/// each thing in the stream into some others, what comes of items and of calls is what came of them before, turned so.
pub fn table_is_the_same_however_written<A, B, X, Y>()
    ensures items { (p : Speech A X) (q : Speech B Y) (f : A → B) (g : X → List Y) (k : List (Note A) → List (Note B)) → IsRendered p q f g k
        → (items : List Item) (t : ClientStep A X) → items_run q (turn_rendered f g k t) items ≡ turn_rendered f g k (items_run p t items) }
    ensures calls { (p : Speech A X) (q : Speech B Y) (f : A → B) (g : X → List Y) (k : List (Note A) → List (Note B)) → IsRendered p q f g k
        → (calls : List Call) (fed : Fed A X) → calls_run q calls (fed_rendered f g k fed) ≡ fed_rendered f g k (calls_run p calls fed) }
{}

/// A law: what a client puts, as bytes, is the writing of what it would put as items, and nothing else differs.
pub fn bytes_are_those_of_items()
    ensures rendered { (items : List Item) (t : ClientStep ItemOut ItemOut) → items_run in_bytes (written t) items ≡ written (items_run in_items t items) }
    ensures calls { (calls : List Call) (fed : Fed ItemOut ItemOut) → calls_run in_bytes calls (written_fed fed) ≡ written_fed (calls_run in_items calls fed) }
{}

/// A law: what the contracts of a client's calls say is a call of the table, so that laws over calls are laws of clients.
/// Where memory ran out within a piece, the piece was cut behind some item; where a submission or a catch-up was taken, it
/// is that call. (The other calls are those of the table word for word, and one that is refused changes nothing.)
pub fn calls_are_those_of_the_client<A, X>()
    ensures lost { (speech : Speech A X) (old new : Fed A X) (piece : List ℕ) → IsMemoryLost speech old piece new → (done : ℕ) × (new ≡ called speech (Cut piece done) old) }
    ensures said { (speech : Speech A X) (f : Fed A X) (to text : List ℕ) (private : Bool) (n : ℕ) → say_answer f.turn.client text ≡ Ok n → called speech (Say to text private) f ≡ record f { turn = says speech f.turn to text private } }
    ensures caught_up { (speech : Speech A X) (f : Fed A X) (max : ℕ) → catch_up_answer f.turn.client ≡ Ok tt → called speech (CatchUp max) f ≡ record f { turn = catches_up speech f.turn max } }
{}

/// A law: the submissions that wait are those in the queue of the session, in their order, each as the stanza that it was
/// put as; so they are as many. Without a session none waits. (XEP-0198, section 4; XEP-0359.)
pub fn submissions_wait_in_the_session<A, X>()
    ensures begins { (speech : Speech A X) (account : Account) → SubmissionsWait speech (first_client account) }
    ensures items { (speech : Speech A X) (items : List Item) (t : ClientStep A X) → Stands t.client → SubmissionsWait speech t.client → SubmissionsWait speech (items_run speech t items).client }
    ensures calls { (speech : Speech A X) (calls : List Call) (f : Fed A X) → Stands f.turn.client → SubmissionsWait speech f.turn.client → SubmissionsWait speech (calls_run speech calls f).turn.client }
    ensures number { (speech : Speech A X) (c : ClientView A) (s : SessionView A) → c.session ≡ Some s → SubmissionsWait speech c → count_true s.waiting.submissions ≡ length c.said.waiting }
{}

/// A law: all that happens to a session is in what is noted down: the notes that items and calls add lead from the stanzas
/// that waited and the count of those that were handled to what they are then. Each count that the server was told is that
/// of the stanzas that were handled, and no more are acknowledged than wait. (XEP-0198, sections 3 to 5.)
pub fn session_rows_are_moves()
    ensures items { (items : List Item) (t : ClientStep ItemOut ItemOut) → IsNoted t (items_run in_items t items) }
    ensures calls { (calls : List Call) (f : Fed ItemOut ItemOut) → IsNoted f.turn (calls_run in_items calls f).turn }
{}
