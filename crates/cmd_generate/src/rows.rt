//! Lines that every generated schedule has: rows of lines that differ in a number.
ghost use Rattle.std.specs.Prelude.{◌≡◌, ◌++◌, IfOk, OnOk};
ghost use Rattle.cmd_generate.specs.Generated.{row_step, row_steps, opening, closing};

use crate::names::{account_named, device_named};
use crate::numbered::Numbered;
use base_io::NoMemory;
use cmd_schedule::{Step, WireStep};
use std::alloc::Global;

/// What the lines of a row do.
#[derive(Clone, Copy)]
pub enum Row {
    /// They declare accounts.
    Accounts,
    /// They declare devices, of each account in turn.
    Devices,
    /// Devices dial.
    Dials,
    /// Devices catch up.
    Catchups,
}

fn row_step(alloc: Global, row: Row, i: u32) -> Result<WireStep, NoMemory>
    ensures { IfOk result (λ step. step ≡ row_step row i) }
{
    match row {
        Row::Accounts => Ok(WireStep::Common(Step::Account(account_named(alloc, i)?))),
        Row::Devices => {
            let device = device_named(alloc, i)?;
            let account = account_named(alloc, i % 3)?;
            Ok(WireStep::Common(Step::Device(device, account)))
        }
        Row::Dials => Ok(WireStep::Dial(device_named(alloc, i)?)),
        Row::Catchups => Ok(WireStep::Common(Step::Catchup(device_named(alloc, i)?, 100))),
    }
}

fn add_row(alloc: Global, steps: &mut Numbered, row: Row, count: u32) -> Result<(), NoMemory>
    ensures { OnOk result (steps.new ≡ steps.old ++ row_steps row count 0) }
{
    for i in 0..count {
        steps.add(row_step(alloc, row, i)?)?;
    }
    Ok(())
}

/// Adds the lines with which every generated schedule begins.
pub fn add_opening(alloc: Global, steps: &mut Numbered) -> Result<(), NoMemory>
    ensures { OnOk result (steps.new ≡ steps.old ++ opening) }
{
    add_row(alloc, steps, Row::Accounts, 3)?;
    add_row(alloc, steps, Row::Devices, 6)?;
    add_row(alloc, steps, Row::Dials, 6)?;
    steps.add(WireStep::Run(12))
}

/// Adds the lines with which every generated schedule ends.
pub fn add_closing(alloc: Global, steps: &mut Numbered) -> Result<(), NoMemory>
    ensures { OnOk result (steps.new ≡ steps.old ++ closing) }
{
    add_row(alloc, steps, Row::Dials, 6)?;
    steps.add(WireStep::Run(12))?;
    add_row(alloc, steps, Row::Catchups, 6)?;
    steps.add(WireStep::Run(100))
}
