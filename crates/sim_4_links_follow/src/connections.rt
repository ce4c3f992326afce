//! Connections that come and go are moves of the links, and what follows a turn or a step follows it in a world.
ghost use Rattle.std.specs.Prelude.{◌≡◌, ◌≢◌, ℕ, ◌+◌, ◌∷◌, [], Bool, true, false, List, Ok, Err, Some, length, slice_get};
ghost use Rattle.cl_core.specs.UserCalls.{catch_up_answer, catches_up, closes, forgets, leaves, say_answer, says};
ghost use Rattle.cl_core.specs.declared.faults.CatchUpStart.{CatchUpStart};
ghost use Rattle.cl_core.specs.declared.faults.SayFault.{SayFault};
ghost use Rattle.cl_handlers.specs.Speech.{in_items};
ghost use Rattle.sim_4_links_follow.specs.Following.{AreDialled, CutFollows, HasNextDown, IsDrawn, IsNextItem, IsOfNobody, IsOnNone, WorldFollows, with_login};
ghost use Rattle.srv_state.specs.Moments.{at_moment, gone_at};
ghost use Rattle.srv_state.specs.State.{ServerState};
ghost use Rattle.sim_3_items.specs.Clients.{ClientRepresents};
ghost use Rattle.sim_3_items.specs.Labels.{Drops, Label, SaysNothing};
ghost use Rattle.sim_3_items.specs.Identities.{Identity, Login};
ghost use Rattle.sim_3_items.specs.Pipes.{PipesRepresent, by_number};
ghost use Rattle.sim_3_items.specs.Reading.{ClosingFollows, ForgettingFollows, HearingFollows, IsNextDown, IsOverHere, IsRead, IsRepresentedHere, LeavingFollows, SpeakingFollows, client_step_on, noted};
ghost use Rattle.sim_3_items.specs.Servers.{ServerFollows, ServerRepresents};
ghost use Rattle.sim_3_items.specs.Represents.{Represents};
ghost use Rattle.sim_3_items.specs.ItemMoves.{CatchUp, Close, Cut, Dial, Down, DownEnd, Forget, ItemMove, Say, Tick, Up, UpEnd, fed_of, moved, served_item};
ghost use Rattle.sim_3_items.specs.ItemPipes.{ItemWire, cut_at, is_end_due, up_end_reported};
ghost use Rattle.sim_3_items.specs.ItemWorlds.{ItemDevice, ItemWorld, silent_client_step};
ghost use Rattle.sim_2_links.specs.Machine.{LinkReached};
ghost use Rattle.sim_2_links.specs.Views.{Table, View, with_at};
ghost use Rattle.sim_2_links.specs.Words.{DownWord};
ghost use Rattle.xml_writer.specs.Items.{ItemOut};

/// A law: where a client gives its session up, and the connection that it has, the links move so: the connection is cut
/// behind all that is on its way up, the client lets it go, where it worked there, and has no session any more.
pub fn forgets_follow()
    ensures links { (who : Identity) (logins : ℕ → Login) (d : ItemDevice) (wires : Table ItemWire) (v : View ItemOut) → IsRepresentedHere who logins d wires v
        → ForgettingFollows who logins d wires v (forgets in_items (fed_of d.client)).turn }
    ensures worlds { (who : Identity) (logins : ℕ → Login) (w : ItemWorld) (v : View ItemOut) → Represents who logins w v → LinkReached v
        → WorldFollows who logins (moved (Forget who.position) w) v (Drops ∷ []) }
{}

/// A law: likewise where it puts its footer before (RFC 6120, section 4.4): the footer goes out where the client works
/// on a connection, behind all else, if that one has not ended.
pub fn closes_follow()
    ensures links { (who : Identity) (logins : ℕ → Login) (d : ItemDevice) (wires : Table ItemWire) (v : View ItemOut) → IsRepresentedHere who logins d wires v
        → ClosingFollows who logins d wires v (closes in_items (fed_of d.client)).turn }
    ensures worlds { (who : Identity) (logins : ℕ → Login) (w : ItemWorld) (v : View ItemOut) → Represents who logins w v → LinkReached v
        → WorldFollows who logins (moved (Close who.position) w) v (Drops ∷ []) }
{}

/// A law: where a device is told the end of the connection that it has, the client lets it go, where it worked there,
/// and keeps its session (XEP-0198, section 5).
pub fn ends_are_told()
    ensures links { (who : Identity) (logins : ℕ → Login) (d : ItemDevice) (wires : Table ItemWire) (v : View ItemOut) (position : ℕ) → IsRepresentedHere who logins d wires v → (over : IsOverHere d wires position)
        → LeavingFollows who logins d wires v position over.wire (leaves (fed_of d.client)).turn }
    ensures worlds { (who : Identity) (logins : ℕ → Login) (w : ItemWorld) (v : View ItemOut) (position : ℕ) (wire : ItemWire) → Represents who logins w v → LinkReached v → slice_get w.wires position ≡ Some wire → wire.device ≡ who.position
        → WorldFollows who logins (moved (DownEnd position) w) v [] }
{}

/// A law: where the network cuts a connection of the device, it cuts it in the links at the same words, and both ends
/// have what they had.
pub fn cuts_follow()
    ensures links { (who : Identity) (logins : ℕ → Login) (h : ServerState ItemOut) (d : ItemDevice) (wires : Table ItemWire) (v : View ItemOut) (k i j : ℕ) (w : ItemWire) → ServerRepresents who logins h v → ClientRepresents who logins d v
        → PipesRepresent who logins wires v → wires k ≡ Some w → w.device ≡ who.position → CutFollows who logins h d (with_at k (cut_at i j w) wires) v k i j }
    ensures worlds { (who : Identity) (logins : ℕ → Login) (w : ItemWorld) (v : View ItemOut) (position i j : ℕ) (wire : ItemWire) → Represents who logins w v → slice_get w.wires position ≡ Some wire → wire.device ≡ who.position
        → WorldFollows who logins (moved (Cut position i j) w) v [] }
{}

/// A law: where a device dials, it leaves the connection that it has, and the new one is there under the next number, with
/// its login; before that the moment may end the session that was parked for too long (XEP-0198, section 5). Nothing of
/// the server is on that number before.
pub fn dials_follow()
    ensures { (who : Identity) (logins : ℕ → Login) (w : ItemWorld) (v : View ItemOut) (x : Login) (mine yours : List ℕ) → Represents who logins w v → LinkReached v → IsDrawn who x mine yours → AreDialled (length w.wires) w.server
        → WorldFollows who (with_login (length w.wires + 1) x logins) (moved (Dial who.position mine yours) w) v [] }
{}

/// A law: what happens to one device, and on its connections, leaves every other one as it is. As a connection comes the
/// moment may end a session of the other one that was parked for too long.
pub fn others_are_left()
    ensures dials { (who whom : Identity) (logins others : ℕ → Login) (w : ItemWorld) (v u : View ItemOut) (mine yours : List ℕ) → Represents who logins w v → Represents whom others w u → whom.position ≢ who.position
        → WorldFollows whom others (moved (Dial who.position mine yours) w) u [] }
    ensures forgets { (who whom : Identity) (logins others : ℕ → Login) (w : ItemWorld) (v u : View ItemOut) → Represents who logins w v → Represents whom others w u → whom.position ≢ who.position
        → Represents whom others (moved (Forget who.position) w) u }
    ensures closes { (who whom : Identity) (logins others : ℕ → Login) (w : ItemWorld) (v u : View ItemOut) → Represents who logins w v → Represents whom others w u → whom.position ≢ who.position
        → Represents whom others (moved (Close who.position) w) u }
    ensures says { (who whom : Identity) (logins others : ℕ → Login) (w : ItemWorld) (v u : View ItemOut) (to text : List ℕ) (private : Bool) → Represents who logins w v → Represents whom others w u → whom.position ≢ who.position
        → Represents whom others (moved (Say who.position to text private) w) u }
    ensures asks { (who whom : Identity) (logins others : ℕ → Login) (w : ItemWorld) (v u : View ItemOut) (most : ℕ) → Represents who logins w v → Represents whom others w u → whom.position ≢ who.position
        → Represents whom others (moved (CatchUp who.position most) w) u }
    ensures hears { (whom : Identity) (others : ℕ → Login) (w : ItemWorld) (u : View ItemOut) (position : ℕ) (wire : ItemWire) → Represents whom others w u → slice_get w.wires position ≡ Some wire → wire.device ≢ whom.position
        → Represents whom others (moved (Down position) w) u }
    ensures ends { (whom : Identity) (others : ℕ → Login) (w : ItemWorld) (u : View ItemOut) (position : ℕ) (wire : ItemWire) → Represents whom others w u → slice_get w.wires position ≡ Some wire → wire.device ≢ whom.position
        → Represents whom others (moved (DownEnd position) w) u }
    ensures cuts { (whom : Identity) (others : ℕ → Login) (w : ItemWorld) (u : View ItemOut) (position i j : ℕ) (wire : ItemWire) → Represents whom others w u → slice_get w.wires position ≡ Some wire → wire.device ≢ whom.position
        → Represents whom others (moved (Cut position i j) w) u }
{}

/// A law: a move of a device, or on a connection, that isn't there changes nothing; nor does one where nothing is to be
/// handed over or told.
pub fn moves_of_nobody_do_nothing()
    ensures nobody { (m : ItemMove) (w : ItemWorld) → IsOfNobody m w → moved m w ≡ w }
    ensures up { (w : ItemWorld) (position : ℕ) (wire : ItemWire) → slice_get w.wires position ≡ Some wire → wire.up.items ≡ [] → moved (Up position) w ≡ w }
    ensures told { (w : ItemWorld) (position : ℕ) (wire : ItemWire) → slice_get w.wires position ≡ Some wire → is_end_due wire.up ≡ false → moved (UpEnd position) w ≡ w }
    ensures down { (w : ItemWorld) (position : ℕ) (wire : ItemWire) → slice_get w.wires position ≡ Some wire → IsOnNone position wire w → moved (Down position) w ≡ w }
{}

/// A law: each item that comes to a device on the connection that it has is that of the first word there, and the client
/// works there.
pub fn words_come_down()
    ensures { (who : Identity) (logins : ℕ → Login) (w : ItemWorld) (v : View ItemOut) (position : ℕ) (d : ItemDevice) (wire : ItemWire) (i : ItemOut) → Represents who logins w v → LinkReached v → IsNextItem position who.position w d wire i
        → HasNextDown who logins d (by_number w.wires) v (position + 1) wire i }
{}

/// A law: what follows the turn of a client on an item, or on a call of its user, follows it in the world. What the
/// client refuses changes nothing.
pub fn turns_follow()
    ensures hears { (who : Identity) (logins : ℕ → Login) (w : ItemWorld) (v : View ItemOut) (position : ℕ) (d : ItemDevice) (wire : ItemWire) (i : ItemOut) → Represents who logins w v → IsNextItem position who.position w d wire i
        → HearingFollows who logins d (by_number w.wires) v (position + 1) wire (client_step_on i d) → WorldFollows who logins (moved (Down position) w) v (noted (client_step_on i d).out.notes) }
    ensures reads { (who : Identity) (logins : ℕ → Login) (w : ItemWorld) (v : View ItemOut) (position : ℕ) (d : ItemDevice) (wire : ItemWire) (i : ItemOut) → Represents who logins w v → LinkReached v → IsNextItem position who.position w d wire i
        → ((word : DownWord ItemOut) (p : IsNextDown who logins d (by_number w.wires) v (position + 1) word) → IsRead who logins d (by_number w.wires) v (position + 1) p.conn p.wire word)
        → WorldFollows who logins (moved (Down position) w) v (noted (client_step_on i d).out.notes) }
    ensures says { (who : Identity) (logins : ℕ → Login) (w : ItemWorld) (v : View ItemOut) (to text : List ℕ) (private : Bool) (d : ItemDevice) (n : ℕ) → Represents who logins w v → slice_get w.devices who.position ≡ Some d
        → say_answer d.client text ≡ Ok n → SpeakingFollows who logins d (by_number w.wires) v (says in_items (silent_client_step d.client) to text private)
        → WorldFollows who logins (moved (Say who.position to text private) w) v (noted (says in_items (silent_client_step d.client) to text private).out.notes) }
    ensures refused { (who : Identity) (logins : ℕ → Login) (w : ItemWorld) (v : View ItemOut) (to text : List ℕ) (private : Bool) (d : ItemDevice) (e : SayFault) → Represents who logins w v → slice_get w.devices who.position ≡ Some d
        → say_answer d.client text ≡ Err e → WorldFollows who logins (moved (Say who.position to text private) w) v [] }
    ensures asks { (who : Identity) (logins : ℕ → Login) (w : ItemWorld) (v : View ItemOut) (most : ℕ) (d : ItemDevice) → Represents who logins w v → slice_get w.devices who.position ≡ Some d → catch_up_answer d.client ≡ Ok tt
        → SpeakingFollows who logins d (by_number w.wires) v (catches_up in_items (silent_client_step d.client) most)
        → WorldFollows who logins (moved (CatchUp who.position most) w) v (noted (catches_up in_items (silent_client_step d.client) most).out.notes) }
    ensures unasked { (who : Identity) (logins : ℕ → Login) (w : ItemWorld) (v : View ItemOut) (most : ℕ) (d : ItemDevice) (e : CatchUpStart) → Represents who logins w v → slice_get w.devices who.position ≡ Some d
        → catch_up_answer d.client ≡ Err e → WorldFollows who logins (moved (CatchUp who.position most) w) v [] }
{}

/// A law: what follows a step of the server on an item, as time passes, and where it is told the end of a connection,
/// follows it in the world: the client says nothing there.
pub fn steps_follow()
    ensures takes { (who : Identity) (logins : ℕ → Login) (w : ItemWorld) (v : View ItemOut) (position : ℕ) (wire : ItemWire) (i : ItemOut) (items : List ItemOut) (done : List (Label ItemOut)) → SaysNothing done → Represents who logins w v
        → slice_get w.wires position ≡ Some wire → wire.up.items ≡ i ∷ items → ServerFollows who logins (served_item position i w).server (by_number (served_item position i w).wires) v done
        → WorldFollows who logins (moved (Up position) w) v done }
    ensures ticks { (who : Identity) (logins : ℕ → Login) (w : ItemWorld) (v : View ItemOut) (milliseconds : ℕ) (done : List (Label ItemOut)) → SaysNothing done → Represents who logins w v
        → ServerFollows who logins (at_moment (w.moment + milliseconds) w.server) (by_number w.wires) v done → WorldFollows who logins (moved (Tick milliseconds) w) v done }
    ensures ends { (who : Identity) (logins : ℕ → Login) (w : ItemWorld) (v : View ItemOut) (position : ℕ) (wire : ItemWire) (done : List (Label ItemOut)) → SaysNothing done → Represents who logins w v → slice_get w.wires position ≡ Some wire → is_end_due wire.up ≡ true
        → ServerFollows who logins (gone_at (position + 1) (at_moment w.moment w.server)) (with_at (position + 1) (up_end_reported wire) (by_number w.wires)) v done → WorldFollows who logins (moved (UpEnd position) w) v done }
{}
