//! What the lines of a report so far tell.
ghost use Rattle.std.specs.Prelude.{◌≡◌, ◌++◌, IfOk, OnOk, option_to_list};
ghost use Rattle.cmd_report_reader.specs.SoFar.{add_said, add_refused, add_page, add_underway, add_logged, add_held, add_unbroken, add_broken, add_to_device, is_empty, no_held, no_logged, no_underway, no_page, no_refused, no_device, no_conn, no_account, nothing_told, add_take, add_account, add_entry, add_conn, add_device, add_part, may_break, add_break, add_end, add_line, report_of};
ghost use Rattle.cmd_schedule.specs.Gives.{Gives};

use crate::device_parts::{add_to_device, no_held};
use crate::line::{DevicePart, ReportLine};
use base_io::{ListOf, NoMemory};
use cmd_report::{AccountLine, ConnLine, DeviceLine, EntryLine, Report, TakeLine};
use cmd_schedule::{LineFault, LineWhy, Version};
use std::alloc::Global;
use std::marker::Model;

/// What the lines of a report so far tell: the last account and the last device stand beside it, since more may
/// follow of them. `broken` where the last line is a break, and `ended` where it is the report's last.
#[derive(Drop)]
pub struct SoFar {
    report: Report,
    account: Option<AccountLine>,
    device: Option<DeviceLine>,
    broken: bool,
    ended: bool,
}

impl Model for SoFar {
    ghost use Rattle.cmd_report_reader.specs.SoFar.{SoFarView};

    ghost Value = { SoFarView };

    ghost view = { λ s. record { version = s.report.version; wire = s.report.wire; takes = s.report.takes; accounts = s.report.accounts; account = s.account; conns = s.report.conns; devices = s.report.devices; device = s.device; broken = s.broken; ended = s.ended } };
}

// Behind the items before the last, the last, where there is one.
fn add_last<T: Drop>(items: &mut ListOf<T>, last: Option<T>) -> Result<(), NoMemory>
    ensures { OnOk result (items.new.items ≡ items.old.items ++ option_to_list last) }
{
    match last {
        None => Ok(()),
        Some(last) => items.push(last),
    }
}

impl SoFar {
    /// What line 1 tells. It takes no memory.
    pub fn new(alloc: Global, version: Version, wire: bool) -> SoFar
        ensures { result ≡ nothing_told version wire }
    {
        SoFar {
            report: Report {
                version,
                wire,
                takes: ListOf::new(alloc),
                accounts: ListOf::new(alloc),
                conns: ListOf::new(alloc),
                devices: ListOf::new(alloc),
            },
            account: None,
            device: None,
            broken: false,
            ended: false,
        }
    }

    /// The report's version.
    pub fn version(&self) -> Version
        ensures { result ≡ self.now.version }
    {
        self.report.version
    }

    /// Whether the last line was the report's last.
    pub fn has_ended(&self) -> bool
        ensures { result ≡ self.now.ended }
    {
        self.ended
    }

    fn no_device(&self) -> bool
        ensures { result ≡ no_device self.now }
    {
        !self.broken && self.device.is_none() && self.report.devices.as_slice().is_empty()
    }

    fn no_conn(&self) -> bool
        ensures { result ≡ no_conn self.now }
    {
        self.report.conns.as_slice().is_empty() && self.no_device()
    }

    fn no_account(&self) -> bool
        ensures { result ≡ no_account self.now }
    {
        self.account.is_none() && self.report.accounts.as_slice().is_empty() && self.no_conn()
    }

    #[tactic(auto, unfolding(crate::specs::SoFar::add_take))]
    fn add_take(&mut self, line: TakeLine) -> Result<(), LineFault>
        ensures { Gives (λ _. self.new) result (add_take self.old line) }
    {
        if !self.no_account() {
            return Err(LineFault::Reason(LineWhy::Word));
        }
        self.report.takes.push(line)?;
        Ok(())
    }

    #[tactic(auto, unfolding(crate::specs::SoFar::add_account))]
    fn add_account(&mut self, line: AccountLine) -> Result<(), LineFault>
        ensures { Gives (λ _. self.new) result (add_account self.old line) }
    {
        if !self.no_conn() {
            return Err(LineFault::Reason(LineWhy::Word));
        }
        let before = self.account.replace(line);
        add_last(&mut self.report.accounts, before)?;
        Ok(())
    }

    #[tactic(auto, unfolding(crate::specs::SoFar::add_entry))]
    fn add_entry(&mut self, line: EntryLine) -> Result<(), LineFault>
        ensures { Gives (λ _. self.new) result (add_entry self.old line) }
    {
        if !self.no_conn() {
            return Err(LineFault::Reason(LineWhy::Word));
        }
        match &mut self.account {
            None => Err(LineFault::Reason(LineWhy::Word)),
            Some(account) => {
                account.entries.push(line)?;
                Ok(())
            }
        }
    }

    #[tactic(auto, unfolding(crate::specs::SoFar::add_conn))]
    fn add_conn(&mut self, line: ConnLine) -> Result<(), LineFault>
        ensures { Gives (λ _. self.new) result (add_conn self.old line) }
    {
        if !self.no_device() {
            return Err(LineFault::Reason(LineWhy::Word));
        }
        self.report.conns.push(line)?;
        Ok(())
    }

    #[tactic(auto, unfolding(crate::specs::SoFar::add_device))]
    fn add_device(&mut self, line: DeviceLine) -> Result<(), LineFault>
        ensures { Gives (λ _. self.new) result (add_device self.old line) }
    {
        if self.broken {
            return Err(LineFault::Reason(LineWhy::Word));
        }
        let before = self.device.replace(line);
        add_last(&mut self.report.devices, before)?;
        Ok(())
    }

    #[tactic(auto, unfolding(crate::specs::SoFar::add_part))]
    fn add_part(&mut self, part: DevicePart) -> Result<(), LineFault>
        ensures { Gives (λ _. self.new) result (add_part self.old part) }
    {
        match &mut self.device {
            None => Err(LineFault::Reason(LineWhy::Word)),
            Some(device) => {
                add_to_device(self.broken, device, part)?;
                self.broken = false;
                Ok(())
            }
        }
    }

    // Whether an entry of a device's log may follow, with a break before it.
    fn may_break(&self) -> bool
        ensures { result ≡ may_break self.now }
    {
        match &self.device {
            None => false,
            Some(device) => !self.broken && no_held(device),
        }
    }

    #[tactic(auto, unfolding(crate::specs::SoFar::add_break))]
    fn add_break(&mut self) -> Result<(), LineFault>
        ensures { Gives (λ _. self.new) result (add_break self.old) }
    {
        if !self.may_break() {
            return Err(LineFault::Reason(LineWhy::Word));
        }
        self.broken = true;
        Ok(())
    }

    #[tactic(auto, unfolding(crate::specs::SoFar::add_end))]
    fn add_end(&mut self) -> Result<(), LineFault>
        ensures { Gives (λ _. self.new) result (add_end self.old) }
    {
        if self.broken {
            return Err(LineFault::Reason(LineWhy::Word));
        }
        self.ended = true;
        Ok(())
    }

    /// With what one line more tells, where it may stand there. `Word` comes where it may not.
    #[tactic(auto, unfolding(crate::specs::SoFar::add_line))]
    pub fn add_line(&mut self, line: ReportLine) -> Result<(), LineFault>
        ensures { Gives (λ _. self.new) result (add_line self.old line) }
    {
        match line {
            ReportLine::Take(line) => self.add_take(line),
            ReportLine::Account(line) => self.add_account(line),
            ReportLine::Entry(line) => self.add_entry(line),
            ReportLine::Conn(line) => self.add_conn(line),
            ReportLine::Device(line) => self.add_device(line),
            ReportLine::Part(part) => self.add_part(part),
            ReportLine::Break => self.add_break(),
            ReportLine::End => self.add_end(),
        }
    }

    /// The report that is told.
    pub fn into_report(self) -> Result<Report, NoMemory>
        ensures { IfOk result (λ report. report ≡ report_of self) }
    {
        let mut report = self.report;
        add_last(&mut report.accounts, self.account)?;
        add_last(&mut report.devices, self.device)?;
        Ok(report)
    }
}
