//! Line 1 of a report.
ghost use Rattle.std.specs.Prelude.{◌≡◌, Some};
ghost use Rattle.cmd_report_reader.specs.Reading.{read_heading, read_one, read_two, read_version};
ghost use Rattle.cmd_schedule.specs.Gives.{Gives, left};
ghost use Rattle.cmd_schedule.specs.Reading.{read_mode};

use crate::so_far::SoFar;
use cmd_schedule::{
    LineFault, LineWhy, MOST_KEPT, Version, last_field, next_field, number_within, wants,
};
use std::alloc::Global;

/// What line 1 tells.
#[tactic(auto, unfolding(crate::specs::Reading::read_heading))]
pub fn read_heading(alloc: Global, line: &str) -> Result<SoFar, LineFault>
    ensures { Gives (λ begun. begun) result (read_heading line.now) }
{
    let (name, rest) = next_field(Some(line))?;
    wants(name == "xmpp-report", LineWhy::Header)?;
    let (version, rest) = next_field(rest)?;
    read_version(alloc, version, rest)
}

#[tactic(auto, unfolding(crate::specs::Reading::read_version))]
fn read_version(alloc: Global, version: &str, fields: Option<&str>) -> Result<SoFar, LineFault>
    ensures { Gives (λ begun. begun) result (read_version (record { front = version.now; rest = left fields.entry })) }
{
    match version {
        "1" => read_one(alloc, fields),
        "2" => read_two(alloc, fields),
        _ => Err(LineFault::Reason(LineWhy::Header)),
    }
}

#[tactic(auto, unfolding(crate::specs::Reading::read_one))]
fn read_one(alloc: Global, fields: Option<&str>) -> Result<SoFar, LineFault>
    ensures { Gives (λ begun. begun) result (read_one (left fields.entry)) }
{
    let wire = read_mode(last_field(fields)?)?;
    Ok(SoFar::new(alloc, Version::One, wire))
}

#[tactic(auto, unfolding(crate::specs::Reading::read_two))]
fn read_two(alloc: Global, fields: Option<&str>) -> Result<SoFar, LineFault>
    ensures { Gives (λ begun. begun) result (read_two (left fields.entry)) }
{
    let (mode, rest) = next_field(fields)?;
    let field = last_field(rest)?;
    let wire = read_mode(mode)?;
    let keep = number_within(1, MOST_KEPT, field)?;
    Ok(SoFar::new(alloc, Version::Two { keep }, wire))
}

/// Whether the report is of a wire schedule.
#[tactic(auto, unfolding(cmd_schedule::specs::Reading::read_mode))]
fn read_mode(word: &str) -> Result<bool, LineFault>
    ensures { Gives (λ wire. wire) result (read_mode word.now) }
{
    match word {
        "wire" => Ok(true),
        "direct" => Ok(false),
        _ => Err(LineFault::Reason(LineWhy::Header)),
    }
}
