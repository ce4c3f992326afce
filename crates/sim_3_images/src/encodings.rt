//! From worlds of bytes to worlds of items.
//!
//! A pipe of bytes is an image at its reader. One that is over is an image for any reader or none. Both pipes of a
//! connection end together.
//!
//! The header that is read is `as_written`: a framer gives the stream's namespace and name whatever the writer's
//! record says.
//!
//! `Tick 0` stands before items that go up: the server looks at the clock once for each piece, in a world of items at
//! a tick. A world that runs has looked at the clock (`now` of `Simulation`): else the moment of a take and the
//! stamp of its entry could differ.
//!
//! Items behind a shut: the server runs on over the rest of a piece and does nothing; in the world of items the pipe
//! was emptied. The order of what is put joins the two (`AreInOrder`).
ghost use Rattle.std.specs.Prelude.{◌≡◌, ◌<◌, ◌+◌, ◌^◌, ℕ, List, [], ◌∷◌, Option, Some, false, true, slice_get};
ghost use Rattle.std.specs.List.{AllByRecursion};
ghost use Rattle.cl_handlers.specs.Clients.{ClientView};
ghost use Rattle.srv_state.specs.State.{ServerState};
ghost use Rattle.xml_framer.specs.States.{State, from_start};
ghost use Rattle.xml_framer.specs.declared.limits.Limits.{Limits};
ghost use Rattle.xml_framer.specs.declared.states.Phase.{Phase};
ghost use Rattle.xml_framer.specs.declared.states.Phase.TheVariants as phase;
ghost use Rattle.srv_state.specs.Moments.{at_moment, gone_at, with_fresh};
ghost use Rattle.sim_3_images.specs.EncodingsCores.{Among, AreInOrder, MayCome, writer_at};
ghost use Rattle.sim_3_images.specs.EncodingsOwed.{CoresKeep, StartKeeps};
ghost use Rattle.sim_3_images.specs.Stands.{Any, ServerStateStands, StandingServers};
ghost use Rattle.sim_3_items.specs.ItemMoves.{step_of};
ghost use Rattle.srv_login.specs.declared.account.Account.{Account};
ghost use Rattle.srv_core.specs.Configs.{server_state_at_start};
ghost use Rattle.srv_core.specs.Table.{after_item};
ghost use Rattle.sim_3_images.specs.ItemRuns.{MayMove};
ghost use Rattle.sim_3_images.specs.ItemStarts.{items_at_start};
ghost use Rattle.sim_3_images.specs.PipeEncodings.{IsCut, IsHanded, PipeEncodes, Standing};
ghost use Rattle.sim_3_images.specs.WorldEncodings.{IsMoved, IsReached, MovesEncode, WorldEncodes};
ghost use Rattle.sim_3_items.specs.ItemPipes.{ItemPipe, ItemWire};
ghost use Rattle.sim_3_items.specs.ItemPipes as items;
ghost use Rattle.sim_3_items.specs.ItemWorlds.{ItemWorld, itself, read_of};
ghost use Rattle.net_pipes.specs.Pipes.{Pipe, closed, emptied, empty_pipe, entered, is_end_due, with_end_reported};
ghost use Rattle.cmd_schedule.specs.Schedules.{WireView};
ghost use Rattle.cmd_schedule.specs.LineLists.{IsLineList};
ghost use Rattle.cmd_network.specs.declared.wire.Wire.{Wire};
ghost use Rattle.cmd_world.specs.Histories.{history_of, world_at_start, worlds_along, worlds_by};
ghost use Rattle.cmd_world.specs.Moves.{Move};
ghost use Rattle.cmd_world.specs.Worlds.{ByteWorld};
ghost use Rattle.xml_writer.specs.Items.{ItemOut, written_item};
ghost use Rattle.law_xml.specs.Puts.{MayPut, OutFits, phase_behind};

/// A law: what each operation on a pipe of bytes is on the pipe of items that it encodes, at the framer that
/// reads it. A fresh pipe encodes an empty one; what is put in the order of a stream, and fits, enters both; of
/// bytes that are handed over the framer gives the first items, and has no fault; a cut leaves first items; and an end
/// is one of both. Where the end of the bytes is due, that of the items is. Where a pipe without bytes has not ended, no
/// item is under way.
pub fn pipes_of_bytes_carry_items()
    ensures fresh { (limits : Limits) → PipeEncodes limits (Some phase.First) (Some (from_start limits)) empty_pipe items.empty_pipe }
    ensures put { (limits : Limits) → limits.attributes < 2 ^ 32 → limits.namespace_bytes < 2 ^ 32 → (now : Phase) (reader : Option State) (b : Pipe) (p : ItemPipe) (i : ItemOut) → MayPut now i → OutFits limits i
        → PipeEncodes limits (Some now) reader b p → PipeEncodes limits (Some (phase_behind i)) reader (entered (written_item i) b) (items.entered (i ∷ []) p) }
    ensures handed { (limits : Limits) (writer : Option Phase) (f : State) (b : Pipe) (p : ItemPipe) (n : ℕ) → b.ended ≡ p.ended → b.told ≡ p.told → Standing limits writer f b p → IsHanded limits writer f b p n }
    ensures cut { (limits : Limits) (writer next : Option Phase) (reader : Option State) (b : Pipe) (p : ItemPipe) (n : ℕ) → PipeEncodes limits writer reader b p → IsCut limits writer next reader b p n }
    ensures emptied { (limits : Limits) (writer : Option Phase) (reader : Option State) (b : Pipe) (p : ItemPipe) → b.told ≡ p.told → PipeEncodes limits writer reader (emptied b) (items.emptied p) }
    ensures closed { (limits : Limits) (writer next : Option Phase) (reader : Option State) (b : Pipe) (p : ItemPipe) → PipeEncodes limits writer reader b p → PipeEncodes limits next reader (closed b) (items.closed p) }
    ensures due { (limits : Limits) (writer : Option Phase) (reader : Option State) (b : Pipe) (p : ItemPipe) → PipeEncodes limits writer reader b p → is_end_due b ≡ true → items.is_end_due p ≡ true }
    ensures told { (limits : Limits) (writer next : Option Phase) (reader other : Option State) (b : Pipe) (p : ItemPipe) → PipeEncodes limits writer reader b p → is_end_due b ≡ true
        → PipeEncodes limits next other (with_end_reported b) (items.with_end_reported p) }
    ensures empty { (limits : Limits) (writer : Option Phase) (reader : Option State) (b : Pipe) (p : ItemPipe) → PipeEncodes limits writer reader b p → b.ended ≡ false → b.bytes ≡ [] → p.items ≡ [] }
{}

/// A law: what a server puts for a connection comes in the order of a stream (RFC 6120, sections 4.2 to 4.4): first its
/// header, behind a footer nothing but the end, and nothing where the connection isn't open. It holds of a server that
/// stands (`ServerStateStands`): no number of a connection is twice, a connection has one session at most, a session's
/// connection is open behind its header, and no footer waits. A new server stands, and whatever happens to it, it
/// stands behind that; what comes to a connection before its header was put is a header.
pub fn what_a_server_puts_is_in_order()
    ensures begins { (n : ℕ) (domain : List ℕ) (accounts : List Account) (keep : ℕ) → ServerStateStands n (server_state_at_start domain accounts keep) }
    ensures moment { (n now : ℕ) (h : ServerState ItemOut) → ServerStateStands n h → ServerStateStands n (at_moment now h) }
    ensures comes { (n : ℕ) (entropy : List ℕ) (h : ServerState ItemOut) → ServerStateStands n h → ServerStateStands (n + 1) (with_fresh (n + 1) entropy h) }
    ensures goes { (n k : ℕ) (h : ServerState ItemOut) → ServerStateStands n h → ServerStateStands n (gone_at k h) }
    ensures stands { (n k : ℕ) (i : ItemOut) (h : ServerState ItemOut) → ServerStateStands n h → MayCome (writer_at k h) i → ServerStateStands n (after_item itself k (read_of i) (step_of h)).server_state }
    ensures order { (n k j : ℕ) (i : ItemOut) (h : ServerState ItemOut) → ServerStateStands n h → MayCome (writer_at k h) i
        → AreInOrder Any j (writer_at j h) (after_item itself k (read_of i) (step_of h)).outs (writer_at j (after_item itself k (read_of i) (step_of h)).server_state) }
{}

/// A law: a move of bytes is some moves of items, with the same server and the same clients but for how what waits is
/// written: where a world of bytes encodes a world of items, it is so behind them. `IsRunOf` says which. Each client notes
/// down the same in the one as in the others, the server reads the same stanzas of each device, and puts the same into
/// its session. So it is of moves one after another, however many, from any world on.
///
/// A premise is what the cores owe: that what they put fits into the limits of who reads it (`CoresKeep`), for some
/// things, server states and clients that are among those of four families. That the server puts it in the order of a
/// stream is shown (`ServerStateStands`).
pub fn a_move_is_moves_of_items<U, D, H, C>()
    ensures one { (up : U → ItemOut) (down : D → ItemOut) (server_state : H → ServerState ItemOut) (client : C → ClientView ItemOut) → CoresKeep (Among up) (Among down) (Among server_state) (Among client) → (m : Move) (w : ByteWorld) (v : ItemWorld) → MayMove m
        → WorldEncodes (Among up) (Among down) (StandingServers (Among server_state)) (Among client) w v → IsMoved (Among up) (Among down) (StandingServers (Among server_state)) (Among client) m w v }
    ensures many { (up : U → ItemOut) (down : D → ItemOut) (server_state : H → ServerState ItemOut) (client : C → ClientView ItemOut) → CoresKeep (Among up) (Among down) (Among server_state) (Among client) → (moves : List Move) (w : ByteWorld) (v : ItemWorld) → AllByRecursion MayMove moves
        → WorldEncodes (Among up) (Among down) (StandingServers (Among server_state)) (Among client) w v → MovesEncode (Among up) (Among down) (StandingServers (Among server_state)) (Among client) (worlds_by moves w) w v }
{}

/// A law: each world of the history of a list of lines encodes a world of items that moves of items lead to from the
/// first one, in which the same accounts and devices are (`reached`); and they go side by side, move by move (`beside`:
/// the worlds behind the first are those of `history_of`). With the same premise, of which the first world is part.
pub fn histories_are_those_of_items<U, D, H, C>()
    ensures reached { (up : U → ItemOut) (down : D → ItemOut) (server_state : H → ServerState ItemOut) (client : C → ClientView ItemOut) → CoresKeep (Among up) (Among down) (Among server_state) (Among client) → (schedule : WireView) → IsLineList schedule
        → StartKeeps (Among server_state) (Among client) schedule → AllByRecursion (IsReached (Among up) (Among down) (StandingServers (Among server_state)) (Among client) (items_at_start schedule)) (history_of schedule) }
    ensures beside { (up : U → ItemOut) (down : D → ItemOut) (server_state : H → ServerState ItemOut) (client : C → ClientView ItemOut) → CoresKeep (Among up) (Among down) (Among server_state) (Among client) → (schedule : WireView) → IsLineList schedule
        → StartKeeps (Among server_state) (Among client) schedule → MovesEncode (Among up) (Among down) (StandingServers (Among server_state)) (Among client) (worlds_along schedule.lines (world_at_start schedule)) (world_at_start schedule) (items_at_start schedule) }
{}

/// A law: where a connection is open and a pipe of it has no bytes, no item is under way there.
pub fn no_bytes_are_no_items<U, D, H, C>()
    ensures up { (up : U → ItemOut) (down : D → ItemOut) (server_state : H → ServerState ItemOut) (client : C → ClientView ItemOut) (w : ByteWorld) (v : ItemWorld) (position : ℕ) (b : Wire) (p : ItemWire) → WorldEncodes (Among up) (Among down) (StandingServers (Among server_state)) (Among client) w v
        → slice_get w.wires position ≡ Some b → slice_get v.wires position ≡ Some p → b.up.ended ≡ false → b.up.bytes ≡ [] → (p.up.ended ≡ false) × (p.up.items ≡ []) }
    ensures down { (up : U → ItemOut) (down : D → ItemOut) (server_state : H → ServerState ItemOut) (client : C → ClientView ItemOut) (w : ByteWorld) (v : ItemWorld) (position : ℕ) (b : Wire) (p : ItemWire) → WorldEncodes (Among up) (Among down) (StandingServers (Among server_state)) (Among client) w v
        → slice_get w.wires position ≡ Some b → slice_get v.wires position ≡ Some p → b.down.ended ≡ false → b.down.bytes ≡ [] → (p.down.ended ≡ false) × (p.down.items ≡ []) }
{}
