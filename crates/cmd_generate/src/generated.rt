//! The schedule that a number and a size make.
//!
//! `generate` answers sizes up to `MOST_SIZE`, 10,000. Its dials could be 10,012, past the grammar's 10,000; it is
//! proved that they never are: of 199 drawn lines in a row at least one is no dial.
ghost use Rattle.std.specs.Prelude.{◌≡◌, ◌≤◌, ◌++◌, IfOk, OnOk};
ghost use Rattle.cmd_generate.specs.Generated.{dials_with, drawn_lines, generated};
ghost use Rattle.cmd_generate.specs.declared.generated.TheConstants.{MOST_SIZE};
ghost use Rattle.cmd_schedule.specs.WireGrammar.{IsWireSchedule};

use crate::draws::Draws;
use crate::lines::line;
use crate::numbered::Numbered;
use crate::rows::{add_closing, add_opening};
use base_io::NoMemory;
use cmd_schedule::{Version, WireSchedule, WireStep};
use std::alloc::Global;

/// The most lines that are drawn.
pub const MOST_SIZE: u32 = 10_000;

/// How many dials there are with this line.
fn dials_with(step: &WireStep, dials: u32) -> u32
    requires { dials ≤ 20000 }
    ensures { result ≡ dials_with step.now dials }
{
    match step {
        WireStep::Dial(_) => dials + 1,
        _ => dials,
    }
}

/// Adds so many lines whose kinds and fields are drawn, behind six dials.
fn add_drawn(alloc: Global, steps: &mut Numbered, number: u64, size: u32) -> Result<(), NoMemory>
    requires { size ≤ MOST_SIZE }
    ensures { OnOk result (steps.new ≡ steps.old ++ drawn_lines size 0 6 number) }
{
    let mut draws = Draws::from_state(number);
    let mut dials = 6;
    for i in 0..size {
        let step = line(alloc, &mut draws, i, dials)?;
        dials = dials_with(&step, dials);
        steps.add(step)?;
    }
    Ok(())
}

/// The schedule, its lines one after the other.
fn made_of(alloc: Global, number: u64, size: u32) -> Result<WireSchedule, NoMemory>
    requires { size ≤ MOST_SIZE }
    ensures { IfOk result (λ schedule. schedule ≡ generated number size) }
{
    let mut steps = Numbered::new(alloc);
    add_opening(alloc, &mut steps)?;
    add_drawn(alloc, &mut steps, number, size)?;
    add_closing(alloc, &mut steps)?;
    Ok(WireSchedule {
        version: Version::One,
        lines: steps.into_lines(),
    })
}

/// The schedule of version 1 that a number and a size make: three accounts, six devices that dial, so many lines drawn
/// from the number on, and then all devices dial and catch up. It is in the grammar of wire schedules.
pub fn generate(alloc: Global, number: u64, size: u32) -> Result<WireSchedule, NoMemory>
    requires { size ≤ MOST_SIZE }
    ensures made { IfOk result (λ schedule. schedule ≡ generated number size) }
    ensures grammar { IfOk result IsWireSchedule }
{
    made_of(alloc, number, size)
}
