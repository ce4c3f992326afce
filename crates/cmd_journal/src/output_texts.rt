//! The lines of what was put out.
ghost use Rattle.std.specs.Prelude.{◌≡◌, ◌++◌, OnOk, map};
ghost use Rattle.std.specs.List.{flat_map};
ghost use Rattle.cmd_journal.specs.Texts.{output_text, output_view};

use crate::output::{Output, Outputs};
use crate::pieces::{append_hex_field, append_number};
use base_io::{Bytes, NoMemory};
use std::alloc::Global;

/// Adds the line of what was put out: `out K HEX` or `shut K`. A refusal leaves a part of it behind the other bytes.
pub fn append_output(alloc: Global, out: &mut Bytes, output: &Output) -> Result<(), NoMemory>
    ensures { OnOk result (out.new.items ≡ out.old.items ++ output_text (output_view output.now)) }
{
    match output {
        Output::Put { connection, bytes } => {
            out.append(b"out ")?;
            append_number(out, *connection)?;
            append_hex_field(alloc, out, bytes.as_slice())?;
        }
        Output::Shut { connection } => {
            out.append(b"shut ")?;
            append_number(out, *connection)?;
        }
    }
    out.append(b"\n")
}

/// Adds the lines of all that was put out, in order.
pub fn append_outputs(alloc: Global, out: &mut Bytes, outputs: &Outputs) -> Result<(), NoMemory>
    ensures { OnOk result (out.new.items ≡ out.old.items ++ flat_map output_text (map output_view outputs.now.items)) }
{
    for output in outputs.as_slice() {
        append_output(alloc, out, output)?;
    }
    Ok(())
}
