//! What a server puts out.
ghost use Rattle.std.specs.Prelude.{◌≡◌, OnOk};
ghost use Rattle.srv_state.specs.Seen.{out_of, outs_of};
ghost use Rattle.cmd_world.specs.Effects.{all_emitted, effects_of, emitted};

use base_io::NoMemory;
use cmd_network::{Wire, put_down_wire, shut_wire, take_reported};
use cmd_report::TakeLines;
use cmd_schedule::Version;
use srv_state::{Output, Outputs};
use std::alloc::Global;

// One output.
fn emit(
    alloc: Global,
    version: Version,
    moment: u64,
    output: Output,
    wires: &mut Vec<Wire>,
    takes: &mut TakeLines,
) -> Result<(), NoMemory>
    ensures { OnOk result (effects_of wires.new.items takes.new.items ≡ emitted version moment (out_of output) (effects_of wires.old.items takes.old.items)) }
{
    match output {
        Output::Put { conn, bytes } => put_down_wire(wires, conn, bytes.as_slice()),
        Output::Shut { conn } => {
            shut_wire(wires, conn);
            Ok(())
        }
        Output::Took { from, to, origin } => takes.push(take_reported(
            alloc,
            version,
            moment,
            from.as_str(),
            to.as_str(),
            origin.as_str(),
        )?),
    }
}

/// What a server puts out at a moment, in order: bytes enter the pipes down, connections that are shut have ended, and what
/// was taken is noted down. After `NoMemory` some first outputs had their effect.
pub(crate) fn emit_all(
    alloc: Global,
    version: Version,
    moment: u64,
    outputs: Outputs,
    wires: &mut Vec<Wire>,
    takes: &mut TakeLines,
) -> Result<(), NoMemory>
    ensures { OnOk result (effects_of wires.new.items takes.new.items ≡ all_emitted version moment (outs_of outputs.items) (effects_of wires.old.items takes.old.items)) }
{
    for output in outputs.into_items() {
        emit(alloc, version, moment, output, wires, takes)?;
    }
    Ok(())
}
