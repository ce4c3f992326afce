//! The law.
//!
//! `ServerStateStands` counts connections: one that comes has a number above those that the server knows of, and each
//! has one session at most.
ghost use Rattle.cmd_schedule.specs.Schedules.{WireView};
ghost use Rattle.cmd_world.specs.Histories.{world_at_start};
ghost use Rattle.cmd_world.specs.Moves.{Move, moved};
ghost use Rattle.cmd_world.specs.Worlds.{ByteWorld};
ghost use Rattle.sim_3_images.specs.Kept.{IsWorldKept};

/// A law: each world of a wire schedule has the schedule's version, its accounts and its devices in their order; and of
/// each device the newest connection that it dialled is there, and while it is open the device has it; no pipe of an open connection has ended. So is the
/// first world, and each move keeps it.
pub fn worlds_keep()
    ensures begins { (schedule : WireView) → IsWorldKept schedule (world_at_start schedule) }
    ensures moves { (schedule : WireView) (m : Move) (w : ByteWorld) → IsWorldKept schedule w → IsWorldKept schedule (moved m w) }
{}
