//! What a run came to, moved into the lines of its report.
ghost use Rattle.std.specs.Prelude.{◌≡◌, map, IfOk};
ghost use Rattle.cmd_replay.specs.Homes.{home_of_account};
ghost use Rattle.cmd_replay.specs.ReportLines.{home_line, state_line};

use crate::run::accounts::Account;
use crate::run::devices::Device;
use base_io::{ListOf, NoMemory};
use cmd_report::{
    AccountLine, AccountLines, DeviceLine, DeviceLines, entry_lines, logged_lines, page_lines,
};
use std::alloc::Global;

fn account_line(alloc: Global, account: Account) -> Result<AccountLine, NoMemory>
    ensures { IfOk result (λ line. line ≡ home_line (home_of_account account)) }
{
    let Account { name, archive } = account;
    let count = archive.len();
    let last = archive.last();
    Ok(AccountLine {
        name: name.into_text(),
        count,
        last,
        entries: entry_lines(alloc, archive.into_entries())?,
    })
}

/// The lines of accounts, in order.
pub(crate) fn account_lines(alloc: Global, accounts: Vec<Account>) -> Result<AccountLines, NoMemory>
    ensures { IfOk result (λ lines. lines.items ≡ map home_line (map home_of_account accounts.items)) }
{
    let mut lines = ListOf::new(alloc);
    lines.reserve(accounts.len())?;
    for account in accounts {
        lines.push(account_line(alloc, account)?)?;
    }
    Ok(lines)
}

fn device_line(alloc: Global, device: Device) -> Result<DeviceLine, NoMemory>
    ensures { IfOk result (λ line. line ≡ state_line device) }
{
    let Device {
        name,
        account,
        said,
        log,
        ..
    } = device;
    let (entries, tiles) = log.into_parts();
    Ok(DeviceLine {
        name,
        account,
        epoch: 1,
        settled: true,
        said,
        refused: ListOf::new(alloc),
        logged: logged_lines(alloc, &tiles, entries)?,
        pages: page_lines(alloc, tiles)?,
        underway: ListOf::new(alloc),
        held: ListOf::new(alloc),
    })
}

/// The lines of devices, in order.
pub(crate) fn device_lines(alloc: Global, devices: Vec<Device>) -> Result<DeviceLines, NoMemory>
    ensures { IfOk result (λ lines. lines.items ≡ map state_line devices.items) }
{
    let mut lines = ListOf::new(alloc);
    lines.reserve(devices.len())?;
    for device in devices {
        lines.push(device_line(alloc, device)?)?;
    }
    Ok(lines)
}
