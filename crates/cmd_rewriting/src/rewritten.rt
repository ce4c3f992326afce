//! The schedule that was written of a file.
ghost use Rattle.std.specs.Prelude.{◌≡◌, ◌⊎◌, Err, Ok, IfOk};
ghost use Rattle.cmd_rewriting.specs.Headings.{wire_of};
ghost use Rattle.cmd_schedule.specs.WireGrammar.{IsWireSchedule, wire_text};
ghost use Rattle.cmd_schedule.specs.WireReading.{reading};
ghost use Rattle.cmd_schedule.specs.declared.fault.ScheduleFault.TheVariants.{NoMemory as WantOfMemory};

use cmd_schedule::{LineWhy, Schedule, ScheduleFault, WireSchedule, read_schedule};
use std::alloc::Global;

/// The wire schedule that bytes are the text of. `BadLine` comes where they are the text of none: `Header` at line 1 for a
/// direct schedule, and else as `read_schedule` has it. `NoMemory` comes where memory ran out, whatever the bytes are.
pub fn read_wire_schedule(alloc: Global, text: &[u8]) -> Result<WireSchedule, ScheduleFault>
    ensures exact { (result ≡ Err WantOfMemory) ⊎ (result ≡ wire_of (reading text.now)) }
    ensures found { IfOk result (λ s. IsWireSchedule s × (text.now ≡ wire_text s)) }
{
    match read_schedule(alloc, text)? {
        Schedule::Wire(schedule) => Ok(schedule),
        Schedule::Direct(_) => Err(ScheduleFault::BadLine {
            line: 1,
            why: LineWhy::Header,
        }),
    }
}
