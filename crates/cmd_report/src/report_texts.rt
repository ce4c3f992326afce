//! The text of a report.
ghost use Rattle.std.specs.Prelude.{◌≡◌, [], ◌∷◌, ◌++◌, IfOk, OnOk, codes, decimal};
ghost use Rattle.std.specs.List.{flat_map};
ghost use Rattle.cmd_schedule.specs.Grammar.{mode_text};
ghost use Rattle.cmd_report.specs.ReportText.{text_of, header_text, last_text, account_text, settled_text, said_text, refused_text, page_text, underway_text, logged_text, held_text};

use crate::printed::{Printed, append_field, append_number_field, print_all};
use crate::report::{AccountLine, AccountLines, DeviceLine, Report};
use base_io::{Bytes, NoMemory};
use cmd_schedule::Version;
use std::alloc::Global;

/// More bytes than most lines have. Memory that isn't written to costs nothing.
const LIKELY_LINE: usize = 192;

fn mode_name(wire: bool) -> &'static str
    ensures { result.now ≡ mode_text wire }
{
    if wire { "wire" } else { "direct" }
}

fn print_header(out: &mut Bytes, version: Version, wire: bool) -> Result<(), NoMemory>
    ensures { OnOk result (out.new.items ≡ out.old.items ++ header_text version wire) }
{
    match version {
        Version::One => {
            out.append(b"xmpp-report 1 ")?;
            out.append(mode_name(wire).as_bytes())
        }
        Version::Two { keep } => {
            out.append(b"xmpp-report 2 ")?;
            out.append(mode_name(wire).as_bytes())?;
            append_number_field(out, u64::from(keep))
        }
    }
}

/// Adds the greatest number given, where the version tells it.
fn print_last(out: &mut Bytes, version: Version, last: u64) -> Result<(), NoMemory>
    ensures { OnOk result (out.new.items ≡ out.old.items ++ last_text version last) }
{
    match version {
        Version::One => Ok(()),
        Version::Two { .. } => append_number_field(out, last),
    }
}

fn print_account(out: &mut Bytes, version: Version, line: &AccountLine) -> Result<(), NoMemory>
    ensures { OnOk result (out.new.items ≡ out.old.items ++ account_text version line.now) }
{
    out.append(b"account ")?;
    out.append(line.name.as_str().as_bytes())?;
    append_number_field(out, line.count)?;
    print_last(out, version, line.last)?;
    out.append(b"\n")?;
    print_all(out, &line.entries)
}

fn print_accounts(out: &mut Bytes, version: Version, lines: &AccountLines) -> Result<(), NoMemory>
    ensures { OnOk result (out.new.items ≡ out.old.items ++ flat_map (account_text version) lines.now.items) }
{
    for line in lines.as_slice() {
        print_account(out, version, line)?;
    }
    Ok(())
}

fn settled_name(settled: bool) -> &'static str
    ensures { result.now ≡ settled_text settled }
{
    if settled { "yes" } else { "no" }
}

fn print_device_head(out: &mut Bytes, line: &DeviceLine) -> Result<(), NoMemory>
    ensures { OnOk result (out.new.items ≡ out.old.items ++ codes "device " ++ line.now.name ++ 32 ∷ line.now.account
        ++ 32 ∷ decimal line.now.epoch ++ 32 ∷ settled_text line.now.settled ++ 10 ∷ []) }
{
    out.append(b"device ")?;
    out.append(line.name.as_str().as_bytes())?;
    append_field(out, line.account.as_str())?;
    append_number_field(out, line.epoch)?;
    append_field(out, settled_name(line.settled))?;
    out.append(b"\n")
}

/// Adds what a device sent, refused and took over.
fn print_device_past(out: &mut Bytes, line: &DeviceLine) -> Result<(), NoMemory>
    ensures { OnOk result (out.new.items ≡ out.old.items ++ flat_map said_text line.now.said ++ flat_map refused_text line.now.refused
        ++ flat_map page_text line.now.pages) }
{
    print_all(out, &line.said)?;
    print_all(out, &line.refused)?;
    print_all(out, &line.pages)
}

/// Adds what a device awaits, and what is in its log and beside it.
fn print_device_log(out: &mut Bytes, line: &DeviceLine) -> Result<(), NoMemory>
    ensures { OnOk result (out.new.items ≡ out.old.items ++ flat_map underway_text line.now.underway
        ++ flat_map logged_text line.now.logged ++ flat_map held_text line.now.held) }
{
    print_all(out, &line.underway)?;
    print_all(out, &line.logged)?;
    print_all(out, &line.held)
}

impl Printed for DeviceLine {
    ghost use Rattle.cmd_report.specs.ReportText.{device_text};

    ghost text = { device_text };

    fn print(&self, out: &mut Bytes) -> Result<(), NoMemory> {
        print_device_head(out, self)?;
        print_device_past(out, self)?;
        print_device_log(out, self)
    }
}

// How many lines with addresses and texts a report has, at most 2^64 - 1.
fn count_lines(report: &Report) -> usize {
    let takes = report.takes.as_slice().len();
    let archived = count_archived(report.accounts.as_slice());
    let told = count_told(report.devices.as_slice());
    takes.saturating_add(archived).saturating_add(told)
}

fn count_archived(accounts: &[AccountLine]) -> usize {
    let mut count = 0usize;
    for account in accounts {
        count = count.saturating_add(account.entries.as_slice().len());
    }
    count
}

fn count_told(devices: &[DeviceLine]) -> usize {
    let mut count = 0usize;
    for device in devices {
        let said = device.said.as_slice().len();
        let logged = device.logged.as_slice().len();
        count = count.saturating_add(said).saturating_add(logged);
    }
    count
}

/// The text of a report: a line for each thing that it tells, its fields separated by one space, each line ended by
/// LF.
#[tactic(auto, unfolding(crate::specs::ReportText::text_of))]
pub fn report_text(alloc: Global, report: &Report) -> Result<Bytes, NoMemory>
    ensures { IfOk result (λ bytes. bytes.items ≡ text_of report.now) }
{
    let mut out = Bytes::new(alloc);
    // Only so that the text needn't move as it grows: without that room it grows as it can.
    let _ = out.reserve(count_lines(report).saturating_mul(LIKELY_LINE));
    print_header(&mut out, report.version, report.wire)?;
    out.append(b"\n")?;
    print_all(&mut out, &report.takes)?;
    print_accounts(&mut out, report.version, &report.accounts)?;
    print_all(&mut out, &report.conns)?;
    print_all(&mut out, &report.devices)?;
    out.append(b"end\n")?;
    Ok(out)
}
