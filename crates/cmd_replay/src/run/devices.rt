//! The devices of a run.
ghost use Rattle.std.specs.Prelude.{◌≡◌, [], IfOk};
ghost use Rattle.cmd_report.specs.Addresses.{full_address};
ghost use Rattle.cmd_replay.specs.Devices.{empty_log};

use base_io::{ListOf, NoMemory, Text};
use cmd_report::{SaidLines, full_address};
use mam_log::Log;
use std::alloc::Global;
use std::marker::Model;

/// A device: its account and that account's place, what it said, and its log. Its full address is made once for all its
/// messages; contracts see the other fields.
#[derive(Drop)]
pub(crate) struct Device {
    pub(crate) name: Text,
    pub(crate) account: Text,
    address: Text,
    pub(crate) home: usize,
    pub(crate) said: SaidLines,
    pub(crate) log: Log,
}

impl Model for Device {
    ghost use Rattle.std.specs.Prelude.{◌≡◌};
    ghost use Rattle.cmd_report.specs.Addresses.{full_address};
    ghost use Rattle.cmd_replay.specs.Devices.{DeviceState};

    ghost Value = { DeviceState };

    ghost view = { λ d. record { name = d.name; account = d.account; home = d.home; said = d.said; log = d.log } };

    ghost invariant = { λ d. d.address ≡ full_address d.account d.name };
}

impl Device {
    /// A device that has said and logged nothing.
    pub(crate) fn new(
        alloc: Global,
        name: &str,
        account: &str,
        home: usize,
    ) -> Result<Device, NoMemory>
        ensures name { IfOk result (λ d. d.name ≡ name.now) }
        ensures account { IfOk result (λ d. d.account ≡ account.now) }
        ensures home { IfOk result (λ d. d.home ≡ home) }
        ensures said { IfOk result (λ d. d.said.items ≡ []) }
        ensures log { IfOk result (λ d. d.log ≡ empty_log) }
    {
        Ok(Device {
            name: Text::from_str(alloc, name)?.shared()?,
            account: Text::from_str(alloc, account)?,
            address: full_address(alloc, account, name)?.shared()?,
            home,
            said: ListOf::new(alloc),
            log: Log::new(alloc),
        })
    }

    /// Its full address, whose copies share its characters.
    pub(crate) fn address(&self) -> &Text
        ensures { result.now ≡ full_address self.now.account self.now.name }
    {
        &self.address
    }
}
