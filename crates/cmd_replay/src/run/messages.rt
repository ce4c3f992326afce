//! A device's message on its way into the archives.
ghost use Rattle.std.specs.Prelude.{◌≡◌, ◌+◌, ◌<◌, ◌∷◌, ◌++◌, [], length, slice_get, Some, OnOk, OnErr, IfOk};
ghost use Rattle.std.specs.List.{All};
ghost use Rattle.cmd_report.specs.Takes.{entry_of};
ghost use Rattle.cmd_report.specs.Addresses.{bare_address, full_address, origin_of};
ghost use Rattle.cmd_report.specs.Lines.{reported_moment, take_line};
ghost use Rattle.cmd_replay.specs.Homes.{Home, delivered, names_of};
ghost use Rattle.cmd_replay.specs.Messages.{HasSaid, homes_after, said_by, sent_of, take_by, takes_after};

use crate::run::account_names::AccountName;
use crate::run::accounts::Accounts;
use crate::run::devices::Device;
use base_io::{Copied, ListOf, NoMemory, Text};
use cmd_report::{SaidLine, SaidMark, TakeLine, TakeLines, origin_of};
use cmd_schedule::Version;
use mam_archive::{ArchivedMessage, Bodies, Body, Entry};
use std::alloc::Global;

/// When messages are taken, and in which version's report.
#[derive(Clone, Copy)]
pub(crate) struct Clock {
    pub(crate) version: Version,
    pub(crate) moment: u64,
}

impl Clock {
    /// The moment, where the report tells it.
    fn told(self) -> Option<u64>
        ensures { result ≡ reported_moment self.version self.moment }
    {
        match self.version {
            Version::One => None,
            Version::Two { .. } => Some(self.moment),
        }
    }
}

/// The bodies of a message with a text in no language.
fn bodies_of(alloc: Global, text: &Text) -> Result<Bodies, NoMemory>
    ensures { IfOk result (λ bodies. bodies.items ≡ record { lang = []; text = text.now } ∷ []) }
{
    let body = Body {
        lang: Text::new(alloc),
        text: text.copied(alloc)?,
    };
    Ok(ListOf::from(Vec::from_array(alloc, [body])?))
}

/// The number of a device's next message.
fn next_number(device: &Device) -> u64
    requires { sent_of device.now < 100000 }
    ensures { result ≡ sent_of device.now + 1 }
{
    device.said.as_slice().len() as u64 + 1
}

/// The archive entry of a device's next message, without a number.
fn sent_entry(
    alloc: Global,
    moment: u64,
    device: &Device,
    to: &AccountName,
    text: &Text,
) -> Result<Entry, NoMemory>
    requires { sent_of device.now < 100000 }
    ensures { IfOk result (λ e. e ≡ entry_of (take_by moment device.now to.now text.now)) }
{
    let number = next_number(device);
    let origin = origin_of(alloc, device.name.as_str(), 1, number)?.shared()?;
    let message = ArchivedMessage {
        stamp: moment,
        from: device.address().copied(alloc)?,
        to: to.address().copied(alloc)?,
        normal: false,
        id: origin.copied(alloc)?,
        origin,
        bodies: bodies_of(alloc, text)?,
    };
    Entry::new(alloc, 0, message)
}

/// The report's line of the take of a device's next message.
fn take_line(
    alloc: Global,
    clock: Clock,
    device: &Device,
    to: &AccountName,
) -> Result<TakeLine, NoMemory>
    requires { sent_of device.now < 100000 }
    ensures { IfOk result (λ line. line ≡ take_line clock.version (take_by clock.moment device.now to.now [])) }
{
    Ok(TakeLine {
        device: device.name.copied(alloc)?,
        epoch: 1,
        n: next_number(device),
        account: to.text().copied(alloc)?,
        moment: clock.told(),
    })
}

/// The name of a message's recipient, shared with its account where it has one.
fn recipient(alloc: Global, accounts: &Accounts, to: &str) -> Result<Text, NoMemory>
    ensures { IfOk result (λ name. name ≡ to.now) }
{
    match accounts.find(to) {
        Some(position) => accounts.name(position).text().copied(alloc),
        None => Text::from_str(alloc, to),
    }
}

/// The report's line of a device's next message.
fn said_line(alloc: Global, device: &Device, to: Text, text: &Text) -> Result<SaidLine, NoMemory>
    requires { sent_of device.now < 100000 }
    ensures { IfOk result (λ line. line ≡ said_by device.now to text.now) }
{
    Ok(SaidLine {
        epoch: 1,
        n: next_number(device),
        state: SaidMark::Acknowledged,
        to,
        text: text.copied(alloc)?,
    })
}

/// Takes a device's next message, where its recipient's account stands at a place. A refusal leaves the archives
/// and the takes as they were.
fn take_message(
    alloc: Global,
    clock: Clock,
    device: &Device,
    accounts: &mut Accounts,
    takes: &mut TakeLines,
    position: usize,
    to: &str,
    text: &Text,
) -> Result<(), NoMemory>
    requires sent { sent_of device.now < 100000 }
    requires home { device.now.home < length accounts.old.homes }
    requires position { position < length accounts.old.homes }
    requires named { slice_get (names_of accounts.old.homes) position ≡ Some to.now }
    requires few { All (λ (home : Home). home.last < 4294967294) accounts.old.homes }
    ensures homes { OnOk result (accounts.new.homes ≡ delivered accounts.old.keep device.now.home position (entry_of (take_by clock.moment device.now to.now text.now)) accounts.old.homes) }
    ensures takes { OnOk result (takes.new.items ≡ takes.old.items ++ take_line clock.version (take_by clock.moment device.now to.now text.now) ∷ []) }
    ensures refused_homes { OnErr result (accounts.new.homes ≡ accounts.old.homes) }
    ensures keep { accounts.new.keep ≡ accounts.old.keep }
    ensures refused_takes { OnErr result (takes.new.items ≡ takes.old.items) }
{
    let line = take_line(alloc, clock, device, accounts.name(position))?;
    let entry = sent_entry(alloc, clock.moment, device, accounts.name(position), text)?;
    takes.reserve(1)?;
    accounts.deliver(alloc, device.home, position, entry)?;
    takes.push_reserved(line);
    Ok(())
}

/// Takes a device's next message, where its recipient has an account. A refusal leaves the archives and the takes
/// as they were.
fn take_if_known(
    alloc: Global,
    clock: Clock,
    device: &Device,
    accounts: &mut Accounts,
    takes: &mut TakeLines,
    to: &str,
    text: &Text,
) -> Result<(), NoMemory>
    requires sent { sent_of device.now < 100000 }
    requires home { device.now.home < length accounts.old.homes }
    requires few { All (λ (home : Home). home.last < 4294967294) accounts.old.homes }
    ensures homes { OnOk result (accounts.new.homes ≡ homes_after accounts.old.keep clock.moment device.now to.now text.now accounts.old.homes) }
    ensures takes { OnOk result (takes.new.items ≡ takes_after clock.version clock.moment device.now to.now text.now accounts.old.homes takes.old.items) }
    ensures refused_homes { OnErr result (accounts.new.homes ≡ accounts.old.homes) }
    ensures keep { accounts.new.keep ≡ accounts.old.keep }
    ensures refused_takes { OnErr result (takes.new.items ≡ takes.old.items) }
{
    match accounts.find(to) {
        Some(position) => take_message(alloc, clock, device, accounts, takes, position, to, text),
        None => Ok(()),
    }
}

/// Sends a device's next message, which is taken and acknowledged at once. A refusal leaves the archives, the
/// takes and what the device said as they were.
pub(crate) fn say(
    alloc: Global,
    clock: Clock,
    device: &mut Device,
    accounts: &mut Accounts,
    takes: &mut TakeLines,
    to: &str,
    text: &Text,
) -> Result<(), NoMemory>
    requires sent { sent_of device.old < 100000 }
    requires home { device.old.home < length accounts.old.homes }
    requires few { All (λ (home : Home). home.last < 4294967294) accounts.old.homes }
    ensures homes { OnOk result (accounts.new.homes ≡ homes_after accounts.old.keep clock.moment device.old to.now text.now accounts.old.homes) }
    ensures takes { OnOk result (takes.new.items ≡ takes_after clock.version clock.moment device.old to.now text.now accounts.old.homes takes.old.items) }
    ensures said { OnOk result (HasSaid device.old device.new to.now text.now) }
    ensures refused_homes { OnErr result (accounts.new.homes ≡ accounts.old.homes) }
    ensures keep { accounts.new.keep ≡ accounts.old.keep }
    ensures refused_takes { OnErr result (takes.new.items ≡ takes.old.items) }
    ensures refused_said { OnErr result (device.new.said.items ≡ device.old.said.items) }
{
    let line = said_line(alloc, device, recipient(alloc, accounts, to)?, text)?;
    device.said.reserve(1)?;
    take_if_known(alloc, clock, device, accounts, takes, to, text)?;
    device.said.push_reserved(line);
    Ok(())
}
