//! What the lines below a device's add to it, in their order.
ghost use Rattle.std.specs.Prelude.{◌≡◌};
ghost use Rattle.cmd_report_reader.specs.SoFar.{add_said, add_refused, add_page, add_underway, add_logged, add_held, add_unbroken, add_broken, add_to_device, no_held, no_logged, no_underway, no_page, no_refused};
ghost use Rattle.cmd_schedule.specs.Gives.{Gives};

use crate::line::DevicePart;
use cmd_report::{
    DeviceLine, EntryLine, LoggedLine, PageLine, RefusedLine, SaidLine, UnderwayLine,
};
use cmd_schedule::{LineFault, LineWhy};

/// Whether no message that a device holds was read of it yet. Their lines come last, so until then an entry that it logged,
/// or a break, may follow.
pub fn no_held(device: &DeviceLine) -> bool
    ensures { result ≡ no_held device.now }
{
    device.held.as_slice().is_empty()
}

fn no_logged(device: &DeviceLine) -> bool
    ensures { result ≡ no_logged device.now }
{
    device.logged.as_slice().is_empty() && no_held(device)
}

fn no_underway(device: &DeviceLine) -> bool
    ensures { result ≡ no_underway device.now }
{
    device.underway.as_slice().is_empty() && no_logged(device)
}

fn no_page(device: &DeviceLine) -> bool
    ensures { result ≡ no_page device.now }
{
    device.pages.as_slice().is_empty() && no_underway(device)
}

fn no_refused(device: &DeviceLine) -> bool
    ensures { result ≡ no_refused device.now }
{
    device.refused.as_slice().is_empty() && no_page(device)
}

#[tactic(auto, unfolding(crate::specs::SoFar::add_said))]
fn add_said(device: &mut DeviceLine, line: SaidLine) -> Result<(), LineFault>
    ensures { Gives (λ _. device.new) result (add_said device.old line) }
{
    if !no_refused(device) {
        return Err(LineFault::Reason(LineWhy::Word));
    }
    device.said.push(line)?;
    Ok(())
}

#[tactic(auto, unfolding(crate::specs::SoFar::add_refused))]
fn add_refused(device: &mut DeviceLine, line: RefusedLine) -> Result<(), LineFault>
    ensures { Gives (λ _. device.new) result (add_refused device.old line) }
{
    if !no_page(device) {
        return Err(LineFault::Reason(LineWhy::Word));
    }
    device.refused.push(line)?;
    Ok(())
}

#[tactic(auto, unfolding(crate::specs::SoFar::add_page))]
fn add_page(device: &mut DeviceLine, line: PageLine) -> Result<(), LineFault>
    ensures { Gives (λ _. device.new) result (add_page device.old line) }
{
    if !no_underway(device) {
        return Err(LineFault::Reason(LineWhy::Word));
    }
    device.pages.push(line)?;
    Ok(())
}

#[tactic(auto, unfolding(crate::specs::SoFar::add_underway))]
fn add_underway(device: &mut DeviceLine, line: UnderwayLine) -> Result<(), LineFault>
    ensures { Gives (λ _. device.new) result (add_underway device.old line) }
{
    if !no_logged(device) {
        return Err(LineFault::Reason(LineWhy::Word));
    }
    device.underway.push(line)?;
    Ok(())
}

#[tactic(auto, unfolding(crate::specs::SoFar::add_logged))]
fn add_logged(device: &mut DeviceLine, line: LoggedLine) -> Result<(), LineFault>
    ensures { Gives (λ _. device.new) result (add_logged device.old line) }
{
    if !no_held(device) {
        return Err(LineFault::Reason(LineWhy::Word));
    }
    device.logged.push(line)?;
    Ok(())
}

fn logged_line(entry: EntryLine, broken: bool) -> LoggedLine
    ensures { result ≡ record { entry = entry; broken = broken } }
{
    LoggedLine { entry, broken }
}

#[tactic(auto, unfolding(crate::specs::SoFar::add_unbroken))]
fn add_unbroken(device: &mut DeviceLine, part: DevicePart) -> Result<(), LineFault>
    ensures { Gives (λ _. device.new) result (add_unbroken device.old part) }
{
    match part {
        DevicePart::Said(line) => add_said(device, line),
        DevicePart::Refused(line) => add_refused(device, line),
        DevicePart::Page(line) => add_page(device, line),
        DevicePart::Underway(line) => add_underway(device, line),
        DevicePart::Logged(entry) => add_logged(device, logged_line(entry, false)),
        DevicePart::Held(line) => {
            device.held.push(line)?;
            Ok(())
        }
    }
}

#[tactic(auto, unfolding(crate::specs::SoFar::add_broken))]
fn add_broken(device: &mut DeviceLine, part: DevicePart) -> Result<(), LineFault>
    ensures { Gives (λ _. device.new) result (add_broken device.old part) }
{
    match part {
        DevicePart::Logged(entry) => add_logged(device, logged_line(entry, true)),
        _ => Err(LineFault::Reason(LineWhy::Word)),
    }
}

/// With what one line more tells of the device, behind a break or not. `Word` comes where it may not stand there.
pub fn add_to_device(
    broken: bool,
    device: &mut DeviceLine,
    part: DevicePart,
) -> Result<(), LineFault>
    ensures { Gives (λ _. device.new) result (add_to_device broken device.old part) }
{
    if broken {
        add_broken(device, part)
    } else {
        add_unbroken(device, part)
    }
}
