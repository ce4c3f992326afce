//! Each move of a world of items is moves of the links, for every device that the world shows.
ghost use Rattle.std.specs.Prelude.{◌≡◌, ℕ, ◌+◌, ◌<◌, ◌^◌, ◌∷◌, [], Bool, List, Ok, Some, length, slice_get};
ghost use Rattle.cl_core.specs.UserCalls.{catch_up_answer, catches_up, say_answer, says};
ghost use Rattle.law_limits.specs.Answerable.{IsItemAnswerable};
ghost use Rattle.law_limits.specs.Within.{IsClientWithin};
ghost use Rattle.cl_handlers.specs.Speech.{in_items};
ghost use Rattle.sim_4_links_follow.specs.Speaking.{IsBareAddress};
ghost use Rattle.sim_4_links_follow.specs.Following.{AreDialled, IsNextItem, WorldFollows};
ghost use Rattle.srv_state.specs.State.{ServerState};
ghost use Rattle.sim_3_items.specs.Identities.{Identity, Login};
ghost use Rattle.sim_3_items.specs.Reading.{client_step_on, noted};
ghost use Rattle.sim_3_items.specs.Represents.{Represents};
ghost use Rattle.sim_3_images.specs.EncodingsCores.{MayCome, writer_at};
ghost use Rattle.sim_3_images.specs.ItemStarts.{items_at_start};
ghost use Rattle.sim_3_items.specs.ItemMoves.{CatchUp, Down, ItemMove, Say, Tick, Up, UpEnd, moved};
ghost use Rattle.sim_3_items.specs.ItemPipes.{ItemWire};
ghost use Rattle.sim_3_items.specs.ItemWorlds.{ItemDevice, ItemWorld, read_of, silent_client_step};
ghost use Rattle.sim_2_links.specs.Machine.{LinkReached};
ghost use Rattle.sim_2_links.specs.Views.{Table, View};
ghost use Rattle.law_limits.specs.Bounds.{IsTextWithin, most_text};
ghost use Rattle.cmd_schedule.specs.Schedules.{WireView};
ghost use Rattle.sim_4_links_follow.specs.Taking.{AreCountable, HasFirst, HasNumber};
ghost use Rattle.sim_4_links_follow.specs.Standing.{MayGoUp, ServerStands};
ghost use Rattle.sim_4_links_follow.specs.Steps.{IsOtherRepresented, ItemGoesUp};
ghost use Rattle.xml_writer.specs.Items.{ItemOut};

/// A law: an item that goes up on a connection of a device is that of a word, and by that word the links of every device
/// move. On a stanza the device's own links take it first; then each device is given what the row on the stanza sends to
/// its session: all of it, or, where the session ends since no more stanzas may wait in its queue, what was sent before
/// that; and the server's outputs tell it, or the queue of a session that is parked. On any other word no stanza is put or
/// handled. The next number of a session has 64 bits.
pub fn items_go_up()
    ensures { (who : Identity) (logins : ℕ → Login) (w : ItemWorld) (v : View ItemOut) (position : ℕ) (wire : ItemWire) (i : ItemOut) (items : List ItemOut) → Represents who logins w v → LinkReached v → slice_get w.wires position ≡ Some wire
        → wire.device ≡ who.position → wire.up.items ≡ i ∷ items → HasNumber w.server → AreCountable v → ItemGoesUp who logins w v position wire i }
{}

/// A law: where the end of a connection of a device is told to the server, a session there is parked or ends
/// (XEP-0198, section 5), and for each other device nothing moves but that the moment may end a session of it that was
/// parked for too long.
pub fn ends_go_up()
    ensures own { (who : Identity) (logins : ℕ → Login) (w : ItemWorld) (v : View ItemOut) (position : ℕ) (wire : ItemWire) → Represents who logins w v → LinkReached v → slice_get w.wires position ≡ Some wire → wire.device ≡ who.position
        → WorldFollows who logins (moved (UpEnd position) w) v [] }
    ensures beside { (who whom : Identity) (logins others : ℕ → Login) (w : ItemWorld) (v u : View ItemOut) (position : ℕ) (wire : ItemWire) → Represents who logins w v → LinkReached v → slice_get w.wires position ≡ Some wire → wire.device ≡ who.position
        → IsOtherRepresented who whom others w u → WorldFollows whom others (moved (UpEnd position) w) u [] }
{}

/// A law: as the clock moves on, a session that was parked for too long ends in the links of its device.
pub fn ticks_follow()
    ensures { (who : Identity) (logins : ℕ → Login) (w : ItemWorld) (v : View ItemOut) (milliseconds : ℕ) → Represents who logins w v → WorldFollows who logins (moved (Tick milliseconds) w) v [] }
{}

/// A law: whatever item comes down to a device, on the connection that it has, the client does on it what it does in the
/// links, and of stanzas what it notes down. The client keeps to its bounds, it can answer what comes, and the next epoch
/// has 64 bits.
pub fn items_go_down()
    ensures { (who : Identity) (logins : ℕ → Login) (w : ItemWorld) (v : View ItemOut) (position : ℕ) (d : ItemDevice) (wire : ItemWire) (i : ItemOut) → Represents who logins w v → LinkReached v → IsNextItem position who.position w d wire i
        → IsClientWithin d.client → IsItemAnswerable (read_of i) → v.epoch + 1 < 2 ^ 64 → WorldFollows who logins (moved (Down position) w) v (noted (client_step_on i d).out.notes) }
{}

/// A law: what the user of a device submits, and the page of the archive that he asks for, is put in the links.
pub fn users_are_followed()
    ensures says { (who : Identity) (logins : ℕ → Login) (w : ItemWorld) (v : View ItemOut) (d : ItemDevice) (to text : List ℕ) (private : Bool) (n : ℕ) → Represents who logins w v → LinkReached v → slice_get w.devices who.position ≡ Some d
        → IsClientWithin d.client → IsBareAddress to → IsTextWithin most_text text → say_answer d.client text ≡ Ok n
        → WorldFollows who logins (moved (Say who.position to text private) w) v (noted (says in_items (silent_client_step d.client) to text private).out.notes) }
    ensures asks { (who : Identity) (logins : ℕ → Login) (w : ItemWorld) (v : View ItemOut) (d : ItemDevice) (most : ℕ) → Represents who logins w v → LinkReached v → slice_get w.devices who.position ≡ Some d → IsClientWithin d.client → most < 2 ^ 32
        → catch_up_answer d.client ≡ Ok tt → WorldFollows who logins (moved (CatchUp who.position most) w) v (noted (catches_up in_items (silent_client_step d.client) most).out.notes) }
{}

/// A law: what comes on a connection of a device before the server put its header there is a header: so a server that
/// stands with its connections (`ServerStateStands` of `sim_3_images`) goes on standing.
pub fn headers_come_first()
    ensures { (who : Identity) (logins : ℕ → Login) (h : ServerState ItemOut) (wires : Table ItemWire) (v : View ItemOut) (k : ℕ) (w : ItemWire) (i : ItemOut) → HasFirst who logins h wires v k w i → MayCome (writer_at k h) i }
{}

/// A law: a world's server stands with the connections that were dialled (`ServerStateStands` of `sim_3_images`) as the
/// world begins, and behind each move, where what goes up may come (`MayGoUp`): on a connection of a device that is
/// shown all does. And where it stands, nothing of the server is on a connection that was not dialled yet.
pub fn servers_stand()
    ensures begins { (schedule : WireView) → ServerStands (items_at_start schedule) }
    ensures stays { (m : ItemMove) (w : ItemWorld) → MayGoUp m w → ServerStands w → ServerStands (moved m w) }
    ensures may { (who : Identity) (logins : ℕ → Login) (w : ItemWorld) (v : View ItemOut) (position : ℕ) → Represents who logins w v → LinkReached v → ((wire : ItemWire) → slice_get w.wires position ≡ Some wire → wire.device ≡ who.position) → MayGoUp (Up position) w }
    ensures dialled { (w : ItemWorld) → ServerStands w → AreDialled (length w.wires) w.server }
{}
