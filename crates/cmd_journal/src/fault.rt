//! Why a line is not read, and why bytes are not the text that they should be.
ghost use Rattle.std.specs.Prelude.{◌≡◌, true};
ghost use Rattle.cmd_journal.specs.Gives.{Gives};
ghost use Rattle.cmd_journal.specs.declared.fault.InputFault.TheVariants.{NoMemory as NoMemoryForLines};
ghost use Rattle.cmd_journal.specs.declared.fault.LineFault.TheVariants.{NoMemory as WantOfMemory};
ghost use Rattle.cmd_schedule.specs.Reading.{wants};

use base_io::NoMemory;
use cmd_schedule::LineWhy;

/// Why a line was not read.
#[derive(Clone, Copy, Debug)]
pub enum LineFault {
    /// The line is not in the grammar.
    Reason(LineWhy),
    /// Memory ran out.
    NoMemory,
}

impl From<NoMemory> for LineFault {
    ghost from_gives = { λ _ e. e ≡ WantOfMemory };

    fn from(_e: NoMemory) -> LineFault {
        LineFault::NoMemory
    }
}

/// A test that has to hold, else the reason why the line is bad.
pub fn wants(holds: bool, why: LineWhy) -> Result<(), LineFault>
    ensures { Gives (λ _. true) result (wants holds why) }
{
    if holds {
        Ok(())
    } else {
        Err(LineFault::Reason(why))
    }
}

/// Why bytes are not an accounts file, or not what a run is done again from.
#[derive(Clone, Copy, Debug, PartialEq, Eq)]
pub enum InputFault {
    /// This is the first bad line, counted from 1, and its first reason.
    BadLine { line: u64, why: LineWhy },
    /// Memory ran out.
    NoMemory,
}

impl From<NoMemory> for InputFault {
    ghost from_gives = { λ _ e. e ≡ NoMemoryForLines };

    fn from(_e: NoMemory) -> InputFault {
        InputFault::NoMemory
    }
}
