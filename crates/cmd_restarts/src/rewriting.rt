//! Lines of a file of restarts, written as a schedule has them.
ghost use Rattle.std.specs.Prelude.{◌≡◌, ◌++◌, OnOk};
ghost use Rattle.cmd_restarts.specs.Files;
ghost use Rattle.cmd_restarts.specs.Files.{line_as_schedule};

use base_io::{Bytes, NoMemory};
use cmd_rewriting::push_ending;

/// Whether the server stops at a line, and is started again.
pub(crate) fn is_restart(line: &[u8], ended: bool) -> bool
    ensures { result ≡ Files.is_restart (record { bytes = line.now; ended = ended }) }
{
    ended && line == b"restart".as_slice()
}

/// Writes a line as a schedule has it.
pub(crate) fn push_line(text: &mut Bytes, line: &[u8], ended: bool) -> Result<(), NoMemory>
    ensures { OnOk result (text.new.items ≡ text.old.items ++ line_as_schedule (record { bytes = line.now; ended = ended })) }
{
    if is_restart(line, ended) {
        text.append(b"tick 300000")?;
    } else {
        text.append(line)?;
    }
    push_ending(text, ended)
}
