//! Why a line is not read, and why bytes are no schedule's text.
ghost use Rattle.std.specs.Prelude.{◌≡◌, true};
ghost use Rattle.cmd_schedule.specs.Gives.{Gives};
ghost use Rattle.cmd_schedule.specs.Reading.{wants};
ghost use Rattle.cmd_schedule.specs.declared.fault.LineFault.TheVariants.{NoMemory as WantOfMemory};
ghost use Rattle.cmd_schedule.specs.declared.fault.ScheduleFault.TheVariants.{NoMemory as NoMemoryForLines};

use base_io::NoMemory;

/// Why a line is not in the grammar. Of a bad line the first reason is told: those up to `Shape` in this order, and
/// the further ones by the fields from the left.
#[derive(Clone, Copy, Debug, PartialEq, Eq)]
pub enum LineWhy {
    /// Line 1 is no schedule's first line.
    Header,
    /// The line is not ended by LF, or is not UTF-8.
    Ending,
    /// The line is past a bound on how many there may be.
    Many,
    /// The first word is unknown.
    Word,
    /// The number of fields is wrong, or one is empty.
    Shape,
    /// A name is no lower-case letter and up to 31 lower-case letters or digits.
    Name,
    /// A name is declared above.
    Twice,
    /// A device or an account is not declared above, or a connection is not made above.
    Unknown,
    /// A number is no decimal number without leading zeros, or is out of bounds.
    Number,
    /// A text has more than 1,000 bytes, or a character that is not allowed.
    Text,
}

/// Why a line was not read.
#[derive(Clone, Copy, Debug)]
pub enum LineFault {
    /// The line is not in the grammar.
    Reason(LineWhy),
    /// Memory ran out.
    NoMemory,
}

impl From<NoMemory> for LineFault {
    ghost from_gives = { λ _ e. e ≡ WantOfMemory };

    fn from(_e: NoMemory) -> LineFault {
        LineFault::NoMemory
    }
}

/// A test that has to hold, else the reason why the line is bad.
pub fn wants(holds: bool, why: LineWhy) -> Result<(), LineFault>
    ensures { Gives (λ _. true) result (wants holds why) }
{
    if holds {
        Ok(())
    } else {
        Err(LineFault::Reason(why))
    }
}

/// Why bytes are not the text of a schedule.
#[derive(Clone, Copy, Debug, PartialEq, Eq)]
pub enum ScheduleFault {
    /// This is the first bad line, counted from 1, and its first reason.
    BadLine { line: u64, why: LineWhy },
    /// Memory ran out.
    NoMemory,
}

impl From<NoMemory> for ScheduleFault {
    ghost from_gives = { λ _ e. e ≡ NoMemoryForLines };

    fn from(_e: NoMemory) -> ScheduleFault {
        ScheduleFault::NoMemory
    }
}
