//! Why a line is not read, and why bytes are no script's text.
ghost use Rattle.std.specs.Prelude.{◌≡◌, true};
ghost use Rattle.cmd_schedule.specs.Reading.{wants};
ghost use Rattle.cmd_sync.specs.Gives.{Gives};
ghost use Rattle.cmd_sync.specs.declared.script_fault.LineFault.TheVariants.{NoMemory as WantOfMemory};
ghost use Rattle.cmd_sync.specs.declared.script_fault.ScriptFault.TheVariants.{NoMemory as NoMemoryForLines};

use base_io::NoMemory;
use cmd_schedule::LineWhy;

/// Why a line was not read.
#[derive(Clone, Copy, Debug)]
pub enum LineFault {
    /// The line is not in the grammar.
    Reason(LineWhy),
    /// Memory ran out.
    NoMemory,
}

impl From<NoMemory> for LineFault {
    ghost from_gives = { λ _ e. e ≡ WantOfMemory };

    fn from(_e: NoMemory) -> LineFault {
        LineFault::NoMemory
    }
}

/// A test that has to hold, else the reason why the line is bad.
pub fn wants(holds: bool, why: LineWhy) -> Result<(), LineFault>
    ensures { Gives (λ _. true) result (wants holds why) }
{
    if holds {
        Ok(())
    } else {
        Err(LineFault::Reason(why))
    }
}

/// Why bytes are not the text of a script.
#[derive(Clone, Copy, Debug, PartialEq, Eq)]
pub enum ScriptFault {
    /// This is the first bad line, counted from 1, and its first reason.
    BadLine { line: u64, why: LineWhy },
    /// Memory ran out.
    NoMemory,
}

impl From<NoMemory> for ScriptFault {
    ghost from_gives = { λ _ e. e ≡ NoMemoryForLines };

    fn from(_e: NoMemory) -> ScriptFault {
        ScriptFault::NoMemory
    }
}
