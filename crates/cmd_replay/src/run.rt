//! The direct run of a schedule: every message is taken at once and acknowledged, and every page that is asked for
//! is answered at once.
//!
//! A message is appended to its two archives once both have room. A catch-up asks for the page after the log's
//! last entry or, where the archive has purged that one, for the page from its first one on, shares the entries of
//! the page's numbers with the archive, and ends the page with the count that it was answered. Archives are reached
//! by number, accounts and devices by name.
ghost use Rattle.std.specs.Prelude.{◌≡◌, ◌+◌, ◌≤◌, false, true, [], IfOk, OnOk};
ghost use Rattle.cmd_direct.specs.Direct.{direct_report};
ghost use Rattle.cmd_schedule.specs.Grammar.{IsDirectSchedule};
ghost use Rattle.base_io.specs.Names.{is_among};
ghost use Rattle.cmd_replay.specs.Homes.{names_of};
ghost use Rattle.cmd_replay.specs.ReportLines.{report_of};
ghost use Rattle.cmd_replay.specs.Runs.{HasCaughtUp, HasDeclared, HasFollowed, HasSent, HasTicked, IsAfter, IsReady, MayFollow};
ghost use Rattle.cmd_schedule.specs.Schedules.{keep_of, steps_of};
ghost use Rattle.cmd_schedule.specs.Standing.{AreRight};

mod account_names;
mod accounts;
mod devices;
mod messages;
mod pages;
mod summary;

use crate::run::accounts::Accounts;
use crate::run::devices::Device;
use crate::run::messages::Clock;
use base_io::{ListOf, NameIndex, NoMemory, Text};
use cmd_report::{Report, TakeLines};
use cmd_schedule::{DirectSchedule, Line, Step, Version};
use std::alloc::Global;

/// The clock, the accounts that a schedule declares anywhere, the devices that were declared so far, each found by its
/// name, and the messages that were taken so far.
#[derive(Drop)]
pub(crate) struct Run {
    clock: Clock,
    accounts: Accounts,
    index: NameIndex,
    devices: Vec<Device>,
    takes: TakeLines,
}

impl Run {
    /// Declares a device of an account that is there.
    fn declare(&mut self, alloc: Global, name: &str, account: &str) -> Result<(), NoMemory>
        requires new { is_among name.now self.old.index ≡ false }
        requires known { is_among account.now (names_of self.old.accounts.homes) ≡ true }
        ensures { OnOk result (HasDeclared self.old self.new name.now account.now) }
    {
        let Some(home) = self.accounts.find(account) else {
            unreachable!()
        };
        let device = Device::new(alloc, name, account, home)?;
        self.devices.reserve(1)?;
        self.index.add(alloc, name)?;
        match self.devices.push(device) {
            Ok(()) => Ok(()),
            Err(_) => unreachable!(),
        }
    }

    /// Sends a message of a device that is there.
    fn say(&mut self, alloc: Global, device: &str, to: &str, text: &Text) -> Result<(), NoMemory>
        requires ready { IsReady self.old }
        requires known { is_among device.now self.old.index ≡ true }
        ensures { OnOk result (HasSent self.old self.new device.now to.now text.now) }
    {
        let Some(position) = self.index.find(device) else {
            unreachable!()
        };
        messages::say(
            alloc,
            self.clock,
            &mut self.devices[position],
            &mut self.accounts,
            &mut self.takes,
            to,
            text,
        )
    }

    /// Catches a device that is there up on its account's archive, in pages of at most so many entries.
    fn catch_up(&mut self, alloc: Global, device: &str, most: u32) -> Result<(), NoMemory>
        requires ready { IsReady self.old }
        requires known { is_among device.now self.old.index ≡ true }
        requires most { (1 ≤ most) × (most ≤ 100) }
        ensures { OnOk result (HasCaughtUp self.old self.new device.now most) }
    {
        let Some(position) = self.index.find(device) else {
            unreachable!()
        };
        let device = &mut self.devices[position];
        pages::catch_up(
            alloc,
            &mut device.log,
            self.accounts.archive(device.home),
            most,
        )
    }

    /// Moves the clock on by so many milliseconds.
    fn tick(&mut self, milliseconds: u32)
        requires early { self.old.clock.moment ≤ 100000000000000 }
        ensures { HasTicked self.old self.new milliseconds }
    {
        self.clock.moment += u64::from(milliseconds);
    }

    /// Follows a step of a schedule.
    fn follow(&mut self, alloc: Global, step: &Step) -> Result<(), NoMemory>
        requires ready { IsReady self.old }
        requires stands { MayFollow self.old step.now }
        ensures { OnOk result (HasFollowed self.old self.new step.now) }
    {
        match step {
            Step::Account(_) => Ok(()),
            Step::Device(name, account) => self.declare(alloc, name.as_str(), account.as_str()),
            Step::Say(device, to, text) | Step::Private(device, to, text) => {
                self.say(alloc, device.as_str(), to.as_str(), text)
            }
            Step::Catchup(device, most) => self.catch_up(alloc, device.as_str(), *most),
            Step::Tick(milliseconds) => {
                self.tick(*milliseconds);
                Ok(())
            }
        }
    }

    /// The report of the run, made by moving what the run has into the report's lines.
    fn into_report(self, alloc: Global) -> Result<Report, NoMemory>
        ensures { IfOk result (λ report. report ≡ report_of self) }
    {
        let Run {
            clock,
            accounts,
            devices,
            takes,
            ..
        } = self;
        Ok(Report {
            version: clock.version,
            wire: false,
            takes,
            accounts: summary::account_lines(alloc, accounts.into_accounts())?,
            conns: ListOf::new(alloc),
            devices: summary::device_lines(alloc, devices)?,
        })
    }

    /// The run before the first of some lines: their accounts are there, and nothing else.
    #[tactic(auto, using(crate::proofs::WholeRuns::after_none))]
    fn of_lines(alloc: Global, version: Version, lines: &[Line]) -> Result<Run, NoMemory>
        requires right { AreRight (steps_of lines.now) }
        requires some { 1 ≤ keep_of version }
        ensures { IfOk result (λ run. IsAfter version (steps_of lines.now) [] run) }
    {
        Ok(Run {
            clock: Clock { version, moment: 0 },
            accounts: Accounts::of_lines(alloc, version.keep(), lines)?,
            index: NameIndex::new(alloc),
            devices: Vec::new(alloc),
            takes: ListOf::new(alloc),
        })
    }

    /// Follows the lines, each below the ones before it.
    fn follow_lines(&mut self, alloc: Global, lines: &[Line]) -> Result<(), NoMemory>
        requires right { AreRight (steps_of lines.now) }
        requires some { 1 ≤ keep_of self.old.clock.version }
        requires start { IsAfter self.old.clock.version (steps_of lines.now) [] self.old }
        ensures { OnOk result (IsAfter self.old.clock.version (steps_of lines.now) (steps_of lines.now) self.new) }
    {
        for line in lines {
            self.follow(alloc, &line.step)?;
        }
        Ok(())
    }
}

/// The run of a schedule behind its last line.
fn followed(alloc: Global, schedule: &DirectSchedule) -> Result<Run, NoMemory>
    requires { IsDirectSchedule schedule.now }
    ensures { IfOk result (λ run. IsAfter schedule.now.version (steps_of schedule.now.lines) (steps_of schedule.now.lines) run) }
{
    let lines = schedule.lines.as_slice();
    let mut run = Run::of_lines(alloc, schedule.version, lines)?;
    run.follow_lines(alloc, lines)?;
    Ok(run)
}

/// The direct run of a schedule: each message is taken at once where its account exists, and each page that a
/// catch-up asks for (XEP-0313) is answered at once. The schedule is dropped before the report is made. `NoMemory`
/// comes only where memory runs out.
#[tactic(auto, using(crate::proofs::WholeRuns::report_told))]
pub fn direct(alloc: Global, schedule: DirectSchedule) -> Result<Report, NoMemory>
    requires { IsDirectSchedule schedule }
    ensures { IfOk result (λ report. report ≡ direct_report schedule) }
{
    let run = followed(alloc, &schedule)?;
    drop(schedule);
    run.into_report(alloc)
}
