//! The laws.
ghost use Rattle.std.specs.Prelude.{◌≡◌, ℕ, ◌+◌, ◌*◌, ◌<◌, ◌∷◌, ◌++◌, [], List, Some, length, slice_get};
ghost use Rattle.cmd_schedule.specs.Schedules.{WireView};
ghost use Rattle.cmd_schedule.specs.declared.schedule.Count.TheVariants.{All};
ghost use Rattle.cmd_world.specs.Histories.{history_of, world_of};
ghost use Rattle.cmd_world.specs.Lines.{passes_of, rounds_of};
ghost use Rattle.cmd_world.specs.Moves.{Down, Up};
ghost use Rattle.cmd_world.specs.Worlds.{ByteWorld};
ghost use Rattle.sim_3_images.specs.Following.{Follow};

/// A law: a `pass` line is two moves each time. All bytes of its connection go to the server, and then all bytes to its
/// device.
pub fn passes_are_up_and_down()
    ensures count { (times position : ℕ) → length (passes_of times position) ≡ 2 * times }
    ensures up { (times position t : ℕ) → t < times → slice_get (passes_of times position) (2 * t) ≡ Some (Up position All) }
    ensures down { (times position t : ℕ) → t < times → slice_get (passes_of times position) (2 * t + 1) ≡ Some (Down position All) }
{}

/// A law: a `run` line is each time two moves of each connection that is there, in ascending order: all bytes of it to the
/// server, and then all bytes to its device.
pub fn runs_are_passes_of_each()
    ensures count { (times count : ℕ) → length (rounds_of times count) ≡ times * (2 * count) }
    ensures up { (times count t position : ℕ) → t < times → position < count → slice_get (rounds_of times count) (t * (2 * count) + 2 * position) ≡ Some (Up position All) }
    ensures down { (times count t position : ℕ) → t < times → position < count → slice_get (rounds_of times count) (t * (2 * count) + (2 * position + 1)) ≡ Some (Down position All) }
{}

/// A law: each world of a schedule's history is one move behind the world before it, and the last is the world in which the
/// schedule ends.
pub fn histories_are_moves()
    ensures moves { (schedule : WireView) → Follow (history_of schedule) }
    ensures last { (schedule : WireView) → (front : List ByteWorld) × (history_of schedule ≡ front ++ world_of schedule ∷ []) }
{}
