//! The law.
ghost use Rattle.sim_3_images.specs.ItemStarts.{items_at_start};
ghost use Rattle.cmd_schedule.specs.Schedules.{WireView};
ghost use Rattle.cmd_schedule.specs.LineLists.{IsLineList};
ghost use Rattle.sim_1_applications.specs.Runs.{begins};
ghost use Rattle.sim_5_moves.specs.Running.{Bounds, WorldSimulates};

/// A law: the world of items in which a list of lines begins stands beside the world in which its applications begin, and
/// nobody has said anything yet, however much may be said, asked for and dialled.
pub fn worlds_begin()
    ensures { (schedule : WireView) → IsLineList schedule → (b : Bounds) → WorldSimulates schedule b 0 (items_at_start schedule) (begins schedule) }
{}
