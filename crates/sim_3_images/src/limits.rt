//! The laws.
ghost use Rattle.std.specs.Prelude.{◌≡◌, ℕ, List, ◌∷◌, Some, slice_get};
ghost use Rattle.std.specs.List.{AllByRecursion};
ghost use Rattle.law_limits.specs.Answerable.{IsItemAnswerable};
ghost use Rattle.law_limits.specs.Within.{IsClientWithin};
ghost use Rattle.cl_handlers.specs.Clients.{ClientView};
ghost use Rattle.sim_3_images.specs.Relayable.{ClientFits, DownFits, ServerFits, UpFits};
ghost use Rattle.srv_state.specs.State.{ServerState};
ghost use Rattle.sim_3_images.specs.EncodingsCores.{Among};
ghost use Rattle.sim_3_images.specs.ItemRuns.{IsRunOf, MayMove};
ghost use Rattle.sim_3_images.specs.ItemStarts.{items_at_start};
ghost use Rattle.sim_3_images.specs.EncodingsOwed.{CoresKeep, StartKeeps};
ghost use Rattle.sim_3_images.specs.Stands.{StandingServers};
ghost use Rattle.sim_3_images.specs.WorldEncodings.{WorldEncodes};
ghost use Rattle.sim_3_images.specs.Fitting.{FitsHere, MayItem, TakesAny, WorldFits};
ghost use Rattle.sim_3_items.specs.ItemMoves.{ItemMove, all_moved, moved};
ghost use Rattle.sim_3_items.specs.ItemPipes.{ItemWire};
ghost use Rattle.sim_3_items.specs.ItemWorlds.{ItemDevice, ItemWorld, read_of};
ghost use Rattle.cmd_schedule.specs.Schedules.{WireView};
ghost use Rattle.cmd_schedule.specs.LineLists.{IsLineList};
ghost use Rattle.cmd_world.specs.Moves.{Move};
ghost use Rattle.cmd_world.specs.Worlds.{ByteWorld};
ghost use Rattle.xml_writer.specs.Items.{ItemOut};

/// A law: in a world of items all that is under way is within limits, and stays so at each move, for some things,
/// server states and clients that are among those of four families: the server's hall is one of these, so is the client
/// of each device, and each item on its way up is one that a client may put, and each one down one that the server may.
///
/// Premises are what the cores owe (`CoresKeep`), and that a server's state takes a connection under any number,
/// whichever's bytes are drawn for it (`TakesAny`). A move is such as a history's moves of bytes are made of
/// (`MayItem`).
pub fn worlds_fit<U, D, H, C>()
    ensures one { (up : U → ItemOut) (down : D → ItemOut) (server_state : H → ServerState ItemOut) (client : C → ClientView ItemOut) → CoresKeep (Among up) (Among down) (Among server_state) (Among client) → TakesAny (Among server_state)
        → (m : ItemMove) (w : ItemWorld) → WorldFits (Among up) (Among down) (Among server_state) (Among client) w → MayItem m → WorldFits (Among up) (Among down) (Among server_state) (Among client) (moved m w) }
    ensures many { (up : U → ItemOut) (down : D → ItemOut) (server_state : H → ServerState ItemOut) (client : C → ClientView ItemOut) → CoresKeep (Among up) (Among down) (Among server_state) (Among client) → TakesAny (Among server_state)
        → (ms : List ItemMove) (w : ItemWorld) → WorldFits (Among up) (Among down) (Among server_state) (Among client) w → AllByRecursion MayItem ms → WorldFits (Among up) (Among down) (Among server_state) (Among client) (all_moved ms w) }
    ensures start { (up : U → ItemOut) (down : D → ItemOut) (server_state : H → ServerState ItemOut) (client : C → ClientView ItemOut) (schedule : WireView) → StartKeeps (Among server_state) (Among client) schedule
        → WorldFits (Among up) (Among down) (Among server_state) (Among client) (items_at_start schedule) }
    ensures encodes { (up : U → ItemOut) (down : D → ItemOut) (server_state : H → ServerState ItemOut) (client : C → ClientView ItemOut) (w : ByteWorld) (v : ItemWorld)
        → WorldEncodes (Among up) (Among down) (StandingServers (Among server_state)) (Among client) w v → WorldFits (Among up) (Among down) (Among server_state) (Among client) v }
{}

/// A law: so it is of the four families of this project, without a premise: at each move (`one`), at moves one after
/// another (`many`), and from the first world of a list of lines on (`start`, `reached`). A world of items that a world of
/// bytes encodes is such a world (`encodes`), and so are those between the moves of items that a move of bytes is,
/// since these are such moves (`runs`).
///
/// What is read off: the client of each device is within its bounds (`client`), and it can answer each item that is on its
/// way to it (`answered`), so the next one (`next`).
pub fn worlds_fit_here()
    ensures one { (m : ItemMove) (w : ItemWorld) → FitsHere w → MayItem m → FitsHere (moved m w) }
    ensures many { (ms : List ItemMove) (w : ItemWorld) → FitsHere w → AllByRecursion MayItem ms → FitsHere (all_moved ms w) }
    ensures start { (schedule : WireView) → IsLineList schedule → FitsHere (items_at_start schedule) }
    ensures reached { (schedule : WireView) (ms : List ItemMove) → IsLineList schedule → AllByRecursion MayItem ms → FitsHere (all_moved ms (items_at_start schedule)) }
    ensures encodes { (w : ByteWorld) (v : ItemWorld) → WorldEncodes UpFits DownFits (StandingServers ServerFits) ClientFits w v → FitsHere v }
    ensures runs { (m : Move) (ms : List ItemMove) → IsRunOf m ms → MayMove m → AllByRecursion MayItem ms }
    ensures client { (w : ItemWorld) (position : ℕ) (d : ItemDevice) → FitsHere w → slice_get w.devices position ≡ Some d → IsClientWithin d.client }
    ensures answered { (w : ItemWorld) (position : ℕ) (wire : ItemWire) → FitsHere w → slice_get w.wires position ≡ Some wire → AllByRecursion (λ i. IsItemAnswerable (read_of i)) wire.down.items }
    ensures next { (w : ItemWorld) (position : ℕ) (wire : ItemWire) (i : ItemOut) (items : List ItemOut) → FitsHere w → slice_get w.wires position ≡ Some wire → wire.down.items ≡ i ∷ items → IsItemAnswerable (read_of i) }
{}
