//! The report of a world.
ghost use Rattle.std.specs.Prelude.{◌≡◌, ◌<◌, ◌≤◌, ◌^◌, ◌++◌, length, map, slice_get, Some, IfOk, OnOk};
ghost use Rattle.srv_state.specs.Seen.{kept_of};
ghost use Rattle.cmd_report.specs.Lines.{entry_line};
ghost use Rattle.cmd_world.specs.WorldReports;
ghost use Rattle.cmd_world.specs.WorldReports.{device_line_of, is_settled_device, report_of};

use crate::world::World;
use base_io::{Copied, ListOf, NoMemory, Text};
use cmd_network::{Device, Wire, device_line};
use cmd_report::{
    AccountLine, AccountLines, ConnEnd, ConnLine, ConnLines, DeviceLines, EntryLines, Report,
    TakeLine, TakeLines, copied_entry_line,
};
use mam_archive::{Archive, Entry};
use srv_core::Server;
use std::alloc::Global;

// Nothing is under way.
fn is_idle_wire(wire: &Wire) -> bool
    ensures { result ≡ WorldReports.is_idle_wire wire.now }
{
    wire.up.is_empty() && wire.down.is_empty()
}

// A connection at a place is settled.
fn is_settled_on(position: usize, server: &Server, device: &Device, wire: &Wire) -> bool
    requires { position < 2 ^ 63 }
    ensures { result ≡ WorldReports.is_settled_on position server.now device.now wire.now }
{
    wire.end == ConnEnd::Open
        && is_idle_wire(wire)
        && !server.part(position as u64 + 1)
        && !device.holds_part()
}

// The entry at a place of an archive, from 0.
fn entry_at(archive: &Archive, position: u64) -> &Entry
    requires { position < length archive.now.entries }
    ensures { slice_get archive.now.entries position ≡ Some result.now }
{
    match archive.get(archive.first() + position) {
        Some(entry) => entry,
        None => unreachable!(),
    }
}

// The lines of an archive's entries.
fn entry_lines(alloc: Global, archive: &Archive) -> Result<EntryLines, NoMemory>
    ensures { IfOk result (λ lines. lines.items ≡ map entry_line archive.now.entries) }
{
    let mut lines = ListOf::new(alloc);
    for position in 0..archive.len() {
        lines.push(copied_entry_line(alloc, entry_at(archive, position))?)?;
    }
    Ok(lines)
}

// The line of an account.
fn account_line(alloc: Global, name: &Text, archive: &Archive) -> Result<AccountLine, NoMemory>
    ensures { IfOk result (λ line. line ≡ WorldReports.account_line name.now (kept_of archive.now)) }
{
    Ok(AccountLine {
        name: name.copied(alloc)?,
        count: archive.len(),
        last: archive.last(),
        entries: entry_lines(alloc, archive)?,
    })
}

// The line of the account at a place, where it has an archive.
fn push_account(
    alloc: Global,
    lines: &mut AccountLines,
    name: &Text,
    server: &Server,
    position: u32,
) -> Result<(), NoMemory>
    ensures { OnOk result (lines.new.items ≡ lines.old.items ++ WorldReports.account_where name.now (slice_get server.now.server_state.archives position)) }
{
    match server.archive(position) {
        Some(archive) => lines.push(account_line(alloc, name, archive)?),
        None => Ok(()),
    }
}

// The lines of the accounts.
fn account_lines(alloc: Global, names: &[Text], server: &Server) -> Result<AccountLines, NoMemory>
    requires { length names.now ≤ 100 }
    ensures { IfOk result (λ lines. lines.items ≡ WorldReports.account_lines 0 names.now server.now.server_state.archives) }
{
    let mut lines = ListOf::new(alloc);
    let mut position = 0u32;
    for name in names {
        push_account(alloc, &mut lines, name, server, position)?;
        position += 1;
    }
    Ok(lines)
}

// The name of the device at a place.
fn name_at(alloc: Global, position: usize, devices: &[Device]) -> Result<Text, NoMemory>
    ensures { IfOk result (λ name. name ≡ WorldReports.name_at position devices.now) }
{
    match devices.get(position) {
        Some(device) => device.name().copied(alloc),
        None => Ok(Text::new(alloc)),
    }
}

// The line of a connection.
fn conn_line(alloc: Global, devices: &[Device], k: u64, wire: &Wire) -> Result<ConnLine, NoMemory>
    ensures { IfOk result (λ line. line ≡ WorldReports.conn_line devices.now k wire.now) }
{
    Ok(ConnLine {
        k,
        device: name_at(alloc, wire.device, devices)?,
        upput: wire.up.put(),
        uptaken: wire.up.taken(),
        downput: wire.down.put(),
        downtaken: wire.down.taken(),
        end: wire.end,
    })
}

// The lines of the connections.
fn conn_lines(alloc: Global, devices: &[Device], wires: &[Wire]) -> Result<ConnLines, NoMemory>
    ensures { IfOk result (λ lines. lines.items ≡ WorldReports.conn_lines devices.now 1 wires.now) }
{
    let mut lines = ListOf::new(alloc);
    let mut k = 1u64;
    for wire in wires {
        lines.push(conn_line(alloc, devices, k, wire)?)?;
        k += 1;
    }
    Ok(lines)
}

// The lines of what was taken.
fn take_lines(alloc: Global, takes: &[TakeLine]) -> Result<TakeLines, NoMemory>
    ensures { IfOk result (λ lines. lines.items ≡ takes.now) }
{
    let mut lines = ListOf::new(alloc);
    lines.reserve(takes.len())?;
    for take in takes {
        lines.push(TakeLine {
            device: take.device.copied(alloc)?,
            epoch: take.epoch,
            n: take.n,
            account: take.account.copied(alloc)?,
            moment: take.moment,
        })?;
    }
    Ok(lines)
}

impl World {
    // Whether the newest connection of a device is settled.
    fn is_settled(&self, device: &Device) -> bool
        ensures { result ≡ WorldReports.is_settled self.now device.now }
    {
        let Some(position) = device.newest() else {
            return false;
        };
        if position >= self.wires.len() {
            return false;
        }
        is_settled_on(position, &self.server, device, &self.wires[position])
    }

    /// Whether the device at a place is settled.
    pub fn settled(&self, device: u32) -> bool
        ensures { result ≡ is_settled_device device self.now }
    {
        match self.devices.get(device as usize) {
            Some(device) => self.is_settled(device),
            None => false,
        }
    }

    /// Whether nothing is under way anywhere.
    pub fn quiet(&self) -> bool
        ensures { result ≡ WorldReports.is_idle self.now }
    {
        self.wires.as_slice().iter().all(is_idle_wire)
    }

    // The lines of the devices.
    fn device_lines(&self) -> Result<DeviceLines, NoMemory>
        ensures { IfOk result (λ lines. lines.items ≡ map (device_line_of self.now) self.now.devices) }
    {
        let mut lines = ListOf::new(self.alloc);
        for device in self.devices.as_slice() {
            lines.push(device_line(self.alloc, device, self.is_settled(device))?)?;
        }
        Ok(lines)
    }

    /// The report. A schedule has at most 100 accounts.
    pub fn report(&self) -> Result<Report, NoMemory>
        requires { length self.now.accounts ≤ 100 }
        ensures { IfOk result (λ report. report ≡ report_of self.now) }
    {
        let alloc = self.alloc;
        Ok(Report {
            version: self.version,
            wire: true,
            takes: take_lines(alloc, self.takes.as_slice())?,
            accounts: account_lines(alloc, self.accounts.as_slice(), &self.server)?,
            conns: conn_lines(alloc, self.devices.as_slice(), self.wires.as_slice())?,
            devices: self.device_lines()?,
        })
    }
}
