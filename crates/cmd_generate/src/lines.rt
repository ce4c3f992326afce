//! Lines whose kind and fields are drawn.
ghost use Rattle.std.specs.Prelude.{◌≡◌, ◌<◌, ◌≤◌, IfOk};
ghost use Rattle.cmd_generate.specs.Generated.{drawn_device, drawn_conn, drawn_message, drawn_say, drawn_private, drawn_catchup, drawn_up, drawn_down, drawn_cut, drawn_dial, drawn_forget, drawn_tick, drawn_of_kind, drawn_line};

use crate::draws::Draws;
use crate::names::{account_named, device_named, text_named};
use base_io::{NoMemory, Text};
use cmd_schedule::{Count, Step, WireStep};
use std::alloc::Global;

fn device(alloc: Global, draws: &mut Draws) -> Result<Text, NoMemory>
    ensures { IfOk result (λ name. drawn_device draws.old ≡ record { value = name; state = draws.new }) }
{
    let number = draws.draw(6);
    device_named(alloc, number)
}

/// A connection that one of so many dials made.
fn conn(draws: &mut Draws, dials: u32) -> u32
    requires some { 0 < dials }
    requires few { dials ≤ 20000 }
    ensures { drawn_conn dials draws.old ≡ record { value = result; state = draws.new } }
{
    1 + draws.draw(dials)
}

/// The device that sends a message, and the account to which.
fn message(alloc: Global, draws: &mut Draws) -> Result<(Text, Text), NoMemory>
    ensures { IfOk result (λ m. drawn_message draws.old ≡ record { value = record { device = m.0; to = m.1 }; state = draws.new }) }
{
    let device = device(alloc, draws)?;
    let account = draws.draw(3);
    Ok((device, account_named(alloc, account)?))
}

fn say(alloc: Global, draws: &mut Draws, i: u32) -> Result<WireStep, NoMemory>
    ensures { IfOk result (λ step. drawn_say i draws.old ≡ record { value = step; state = draws.new }) }
{
    let (device, to) = message(alloc, draws)?;
    let text = text_named(alloc, i)?;
    Ok(WireStep::Common(Step::Say(device, to, text)))
}

fn private(alloc: Global, draws: &mut Draws, i: u32) -> Result<WireStep, NoMemory>
    ensures { IfOk result (λ step. drawn_private i draws.old ≡ record { value = step; state = draws.new }) }
{
    let (device, to) = message(alloc, draws)?;
    let text = text_named(alloc, i)?;
    Ok(WireStep::Common(Step::Private(device, to, text)))
}

fn catchup(alloc: Global, draws: &mut Draws) -> Result<WireStep, NoMemory>
    ensures { IfOk result (λ step. drawn_catchup draws.old ≡ record { value = step; state = draws.new }) }
{
    let device = device(alloc, draws)?;
    let most = 1 + draws.draw(10);
    Ok(WireStep::Common(Step::Catchup(device, most)))
}

fn up(draws: &mut Draws, dials: u32) -> WireStep
    requires some { 0 < dials }
    requires few { dials ≤ 20000 }
    ensures { drawn_up dials draws.old ≡ record { value = result; state = draws.new } }
{
    let conn = conn(draws, dials);
    let count = draws.draw(2000);
    WireStep::Up(conn, Count::Number(count))
}

fn down(draws: &mut Draws, dials: u32) -> WireStep
    requires some { 0 < dials }
    requires few { dials ≤ 20000 }
    ensures { drawn_down dials draws.old ≡ record { value = result; state = draws.new } }
{
    let conn = conn(draws, dials);
    let count = draws.draw(2000);
    WireStep::Down(conn, Count::Number(count))
}

fn cut(draws: &mut Draws, dials: u32) -> WireStep
    requires some { 0 < dials }
    requires few { dials ≤ 20000 }
    ensures { drawn_cut dials draws.old ≡ record { value = result; state = draws.new } }
{
    let conn = conn(draws, dials);
    let up = draws.draw(2000);
    let down = draws.draw(2000);
    WireStep::Cut(conn, up, down)
}

fn dial(alloc: Global, draws: &mut Draws) -> Result<WireStep, NoMemory>
    ensures { IfOk result (λ step. drawn_dial draws.old ≡ record { value = step; state = draws.new }) }
{
    Ok(WireStep::Dial(device(alloc, draws)?))
}

fn forget(alloc: Global, draws: &mut Draws) -> Result<WireStep, NoMemory>
    ensures { IfOk result (λ step. drawn_forget draws.old ≡ record { value = step; state = draws.new }) }
{
    Ok(WireStep::Forget(device(alloc, draws)?))
}

fn tick(draws: &mut Draws) -> WireStep
    ensures { drawn_tick draws.old ≡ record { value = result; state = draws.new } }
{
    WireStep::Common(Step::Tick(draws.draw(100_000)))
}

/// Line `i` of a kind, behind so many dials.
#[tactic(auto, unfolding(crate::specs::Generated::drawn_of_kind))]
fn line_of_kind(
    alloc: Global,
    draws: &mut Draws,
    kind: u32,
    i: u32,
    dials: u32,
) -> Result<WireStep, NoMemory>
    requires some { 0 < dials }
    requires few { dials ≤ 20000 }
    ensures { IfOk result (λ step. drawn_of_kind kind i dials draws.old ≡ record { value = step; state = draws.new }) }
{
    match kind {
        0..=5 => say(alloc, draws, i),
        6 | 7 => Ok(WireStep::Run(1)),
        8 => catchup(alloc, draws),
        9 => Ok(up(draws, dials)),
        10 => Ok(down(draws, dials)),
        11 => Ok(cut(draws, dials)),
        12 => dial(alloc, draws),
        13 => forget(alloc, draws),
        14 => Ok(tick(draws)),
        _ => private(alloc, draws, i),
    }
}

/// Line `i`, counted from 0, behind so many dials.
#[tactic(auto, unfolding(crate::specs::Generated::drawn_line))]
pub fn line(alloc: Global, draws: &mut Draws, i: u32, dials: u32) -> Result<WireStep, NoMemory>
    requires some { 0 < dials }
    requires few { dials ≤ 20000 }
    ensures { IfOk result (λ step. drawn_line i dials draws.old ≡ record { value = step; state = draws.new }) }
{
    let kind = draws.draw(16);
    line_of_kind(alloc, draws, kind, i, dials)
}
