//! The summary of a generated schedule's report.
ghost use Rattle.std.specs.Prelude.{◌≡◌, [], ◌∷◌, ◌++◌, IfOk, OnOk, decimal};
ghost use Rattle.std.specs.List.{flat_map};
ghost use Rattle.cmd_generate.specs.Summary.{account_summary, device_summary, summary_of};
ghost use Rattle.cmd_report.specs.ReportText.{settled_text};

use base_io::{Bytes, NoMemory};
use cmd_report::{AccountLine, DeviceLine, Report};
use cmd_schedule::WireSchedule;
use itoa::Buffer;
use std::alloc::Global;

fn append_number(out: &mut Bytes, n: u64) -> Result<(), NoMemory>
    ensures { OnOk result (out.new.items ≡ out.old.items ++ decimal n) }
{
    let mut buffer = Buffer::new();
    out.append(buffer.format(n).as_bytes())
}

fn append_number_field(out: &mut Bytes, n: u64) -> Result<(), NoMemory>
    ensures { OnOk result (out.new.items ≡ out.old.items ++ 32 ∷ decimal n) }
{
    out.append(b" ")?;
    append_number(out, n)
}

fn append_account(out: &mut Bytes, account: &AccountLine) -> Result<(), NoMemory>
    ensures { OnOk result (out.new.items ≡ out.old.items ++ account_summary account.now) }
{
    out.append(b"account ")?;
    out.append(account.name.as_str().as_bytes())?;
    append_number_field(out, account.count)?;
    out.append(b"\n")
}

fn append_accounts(out: &mut Bytes, accounts: &[AccountLine]) -> Result<(), NoMemory>
    ensures { OnOk result (out.new.items ≡ out.old.items ++ flat_map account_summary accounts.now) }
{
    for account in accounts {
        append_account(out, account)?;
    }
    Ok(())
}

fn settled_name(settled: bool) -> &'static str
    ensures { result.now ≡ settled_text settled }
{
    if settled { "yes" } else { "no" }
}

fn append_device(out: &mut Bytes, device: &DeviceLine) -> Result<(), NoMemory>
    ensures { OnOk result (out.new.items ≡ out.old.items ++ device_summary device.now) }
{
    out.append(b"device ")?;
    out.append(device.name.as_str().as_bytes())?;
    append_number_field(out, device.epoch)?;
    append_number_field(out, device.logged.as_slice().len() as u64)?;
    out.append(b" ")?;
    out.append(settled_name(device.settled).as_bytes())?;
    out.append(b"\n")
}

fn append_devices(out: &mut Bytes, devices: &[DeviceLine]) -> Result<(), NoMemory>
    ensures { OnOk result (out.new.items ≡ out.old.items ++ flat_map device_summary devices.now) }
{
    for device in devices {
        append_device(out, device)?;
    }
    Ok(())
}

/// The summary of a schedule's report: how many lines the schedule has, how many takes there were, of each account how
/// many entries it keeps, and of each device its epoch, how many entries it logged and whether it is settled.
#[tactic(auto, unfolding(crate::specs::Summary::summary_of))]
pub fn summary_text(
    alloc: Global,
    schedule: &WireSchedule,
    report: &Report,
) -> Result<Bytes, NoMemory>
    ensures { IfOk result (λ bytes. bytes.items ≡ summary_of schedule.now report.now) }
{
    let mut out = Bytes::new(alloc);
    out.append(b"xmpp-summary 1\n")?;
    out.append(b"lines ")?;
    append_number(&mut out, schedule.lines.as_slice().len() as u64 + 1)?;
    out.append(b"\n")?;
    out.append(b"takes ")?;
    append_number(&mut out, report.takes.as_slice().len() as u64)?;
    out.append(b"\n")?;
    append_accounts(&mut out, report.accounts.as_slice())?;
    append_devices(&mut out, report.devices.as_slice())?;
    out.append(b"end\n")?;
    Ok(out)
}
