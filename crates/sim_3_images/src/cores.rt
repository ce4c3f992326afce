//! The laws.
//!
//! Premises over families: `CoresKeep` is of predicates; a clause can't quantify over these, so the laws take the
//! types that they are the encodings of (`Among`). `TakesAny` is a premise more, which the families of this project
//! meet.
ghost use Rattle.std.specs.Prelude.{◌≡◌, ℕ, List, [], Some, false, slice_get};
ghost use Rattle.std.specs.List.{AllByRecursion};
ghost use Rattle.sim_3_images.specs.Relayable.{ClientFits, DownFits, ServerFits, UpFits};
ghost use Rattle.sim_3_images.specs.CoresOwed.{ClientIsRelayable, ServerAnswers};
ghost use Rattle.sim_3_images.specs.ItemRuns.{MayMove};
ghost use Rattle.sim_3_images.specs.ItemStarts.{items_at_start};
ghost use Rattle.sim_3_images.specs.EncodingsOwed.{CoresKeep, StartKeeps};
ghost use Rattle.sim_3_images.specs.Stands.{StandingServers};
ghost use Rattle.sim_3_images.specs.WorldEncodings.{IsReached, MovesEncode, WorldEncodes};
ghost use Rattle.sim_3_items.specs.ItemPipes.{ItemWire};
ghost use Rattle.sim_3_items.specs.ItemWorlds.{ItemWorld};
ghost use Rattle.cmd_schedule.specs.Schedules.{WireView};
ghost use Rattle.cmd_schedule.specs.LineLists.{IsLineList};
ghost use Rattle.cmd_network.specs.declared.wire.Wire.{Wire};
ghost use Rattle.cmd_world.specs.Histories.{history_of, worlds_by};
ghost use Rattle.cmd_world.specs.Moves.{Move};
ghost use Rattle.cmd_world.specs.Worlds.{ByteWorld};

/// A law: both cores keep to what is owed to the pipes, of four families (`specs/Relayable.antt`). What a client puts
/// is within a server's limits and mild: none of its messages has a result of an archive in it, and the payload of its
/// `auth` is short. What the server puts is within a client's limits, and a client can answer it. What a list
/// of lines begins with is among these.
pub fn both_cores_keep_to_the_limits()
    ensures client { ClientIsRelayable }
    ensures server { ServerAnswers }
    ensures keep { CoresKeep UpFits DownFits ServerFits ClientFits }
    ensures start { (schedule : WireView) → IsLineList schedule → StartKeeps ServerFits ClientFits schedule }
{}

/// A law: each world of the history of a list of lines, of either version, encodes a world of items that moves of
/// items lead to from the first one. From any such world on, moves of bytes and moves of items go side by side, however many
/// there are (`moves`). Where a connection is open in it, and a pipe of that has no bytes, no item is under way
/// there.
pub fn each_world_is_one_of_items()
    ensures history { (schedule : WireView) → IsLineList schedule
        → AllByRecursion (IsReached UpFits DownFits (StandingServers ServerFits) ClientFits (items_at_start schedule)) (history_of schedule) }
    ensures moves { (moves : List Move) (w : ByteWorld) (v : ItemWorld) → AllByRecursion MayMove moves → WorldEncodes UpFits DownFits (StandingServers ServerFits) ClientFits w v
        → MovesEncode UpFits DownFits (StandingServers ServerFits) ClientFits (worlds_by moves w) w v }
    ensures up { (w : ByteWorld) (v : ItemWorld) (position : ℕ) (b : Wire) (p : ItemWire) → WorldEncodes UpFits DownFits (StandingServers ServerFits) ClientFits w v
        → slice_get w.wires position ≡ Some b → slice_get v.wires position ≡ Some p → b.up.ended ≡ false → b.up.bytes ≡ [] → (p.up.ended ≡ false) × (p.up.items ≡ []) }
    ensures down { (w : ByteWorld) (v : ItemWorld) (position : ℕ) (b : Wire) (p : ItemWire) → WorldEncodes UpFits DownFits (StandingServers ServerFits) ClientFits w v
        → slice_get w.wires position ≡ Some b → slice_get v.wires position ≡ Some p → b.down.ended ≡ false → b.down.bytes ≡ [] → (p.down.ended ≡ false) × (p.down.items ≡ []) }
{}
