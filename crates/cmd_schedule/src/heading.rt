//! Line 1 of a schedule.
ghost use Rattle.std.specs.Prelude.{◌≡◌};
ghost use Rattle.cmd_schedule.specs.Gives.{Gives, left};
ghost use Rattle.cmd_schedule.specs.Reading.{read_heading, read_mode, read_one, read_two, read_version};

use crate::decimals::number_within;
use crate::fault::{LineFault, LineWhy, wants};
use crate::fields::{last_field, next_field};
use crate::lines::spelled;
use crate::schedule::{MOST_KEPT, Version};

/// What line 1 says: the version, and whether messages go through connections.
#[derive(Clone, Copy)]
pub struct Heading {
    pub version: Version,
    pub wire: bool,
}

/// What line 1 says, or the first thing that is wrong in it. Whoever reads a schedule answers `Header` for each.
#[tactic(auto, unfolding(crate::specs::Reading::read_heading))]
pub fn read_heading(line: &[u8]) -> Result<Heading, LineFault>
    ensures { Gives (λ heading. heading) result (read_heading line.now) }
{
    let line = spelled(line, true)?;
    let (name, rest) = next_field(Some(line))?;
    wants(name == "xmpp-schedule", LineWhy::Header)?;
    let (version, rest) = next_field(rest)?;
    read_version(version, rest)
}

/// What line 1 says behind the version.
#[tactic(auto, unfolding(crate::specs::Reading::read_version))]
fn read_version(version: &str, fields: Option<&str>) -> Result<Heading, LineFault>
    ensures { Gives (λ heading. heading) result (read_version (record { front = version.now; rest = left fields.entry })) }
{
    match version {
        "1" => read_one(fields),
        "2" => read_two(fields),
        _ => Err(LineFault::Reason(LineWhy::Header)),
    }
}

#[tactic(auto, unfolding(crate::specs::Reading::read_one))]
fn read_one(fields: Option<&str>) -> Result<Heading, LineFault>
    ensures { Gives (λ heading. heading) result (read_one (left fields.entry)) }
{
    let wire = read_mode(last_field(fields)?)?;
    Ok(Heading {
        version: Version::One,
        wire,
    })
}

#[tactic(auto, unfolding(crate::specs::Reading::read_two))]
fn read_two(fields: Option<&str>) -> Result<Heading, LineFault>
    ensures { Gives (λ heading. heading) result (read_two (left fields.entry)) }
{
    let (mode, rest) = next_field(fields)?;
    let field = last_field(rest)?;
    let wire = read_mode(mode)?;
    let keep = number_within(1, MOST_KEPT, field)?;
    Ok(Heading {
        version: Version::Two { keep },
        wire,
    })
}

/// Whether it is a wire schedule.
#[tactic(auto, unfolding(crate::specs::Reading::read_mode))]
fn read_mode(word: &str) -> Result<bool, LineFault>
    ensures { Gives (λ wire. wire) result (read_mode word.now) }
{
    match word {
        "wire" => Ok(true),
        "direct" => Ok(false),
        _ => Err(LineFault::Reason(LineWhy::Header)),
    }
}
