//! What the user of a device asks for.
ghost use Rattle.std.specs.Prelude.{◌≡◌, ◌≤◌, IfOk, IsTrue, OnOk};
ghost use Rattle.cl_core.specs.Values.{ClientValue, fed_of};
ghost use Rattle.cmd_network.specs.Devices.{catches_up_on, refuses, says_to, silent};
ghost use Rattle.cmd_report.specs.Addresses;
ghost use Rattle.cmd_schedule.specs.Grammar.{is_name};

use crate::device::Device;
use crate::talking::silence;
use base_io::{Bytes, NoMemory};
use cl_core::{CatchUpStart, ClientOut, SayFault};
use cmd_report::{RefusedLine, RefusedWhy, bare_address};
use im_jid::Jid;
use std::alloc::Global;

/// The bare address of an account.
pub(crate) fn address_of(alloc: Global, account: &str) -> Result<Jid, NoMemory>
    requires { IsTrue (is_name account.now) }
    ensures { IfOk result (λ jid. jid ≡ Addresses.bare_address account.now) }
{
    Ok(Jid::of_normal(bare_address(alloc, account)?))
}

impl Device {
    // A line is refused.
    fn refuse(&mut self, line: u64, why: RefusedWhy) -> Result<(), NoMemory>
        ensures { OnOk result (self.new ≡ refuses line why self.old) }
    {
        self.refused.push(RefusedLine { line, why })?;
        Ok(())
    }

    // A message to an address is submitted, or its line is refused.
    fn submit(
        &mut self,
        alloc: Global,
        line: u64,
        to: &Jid,
        text: &str,
        private: bool,
        out: &mut ClientOut,
    ) -> Result<(), NoMemory>
        requires silent { (client : ClientValue) → fed_of client out.old ≡ silent client }
        ensures device { OnOk result (self.new ≡ (says_to line to.now text.now private self.old).device) }
        ensures put { OnOk result (out.new.bytes.items ≡ (says_to line to.now text.now private self.old).put) }
    {
        match self.client.say(alloc, to, text, private, out) {
            Ok(_) => Ok(()),
            Err(SayFault::NotBound) => self.refuse(line, RefusedWhy::NotBound),
            Err(SayFault::OutboxFull) => self.refuse(line, RefusedWhy::OutboxFull),
            Err(SayFault::BadText) => Ok(()),
            Err(SayFault::NoMemory) => Err(NoMemory),
        }
    }

    // Pages are asked for, or the line is refused.
    fn ask(
        &mut self,
        alloc: Global,
        line: u64,
        most: u32,
        out: &mut ClientOut,
    ) -> Result<(), NoMemory>
        requires most { (1 ≤ most) × (most ≤ 100) }
        requires silent { (client : ClientValue) → fed_of client out.old ≡ silent client }
        ensures device { OnOk result (self.new ≡ (catches_up_on line most self.old).device) }
        ensures put { OnOk result (out.new.bytes.items ≡ (catches_up_on line most self.old).put) }
    {
        match self.client.catch_up(alloc, most, out) {
            Ok(()) => Ok(()),
            Err(CatchUpStart::NotBound) => self.refuse(line, RefusedWhy::NotBound),
            Err(CatchUpStart::OutboxFull) => self.refuse(line, RefusedWhy::OutboxFull),
            Err(CatchUpStart::Underway) => self.refuse(line, RefusedWhy::Underway),
            Err(CatchUpStart::NoMemory) => Err(NoMemory),
        }
    }

    /// The user submits a message to an account, by a line of the schedule. Where the client refuses it the line is noted
    /// down, and nothing is put.
    pub fn say(
        &mut self,
        alloc: Global,
        line: u64,
        to: &str,
        text: &str,
        private: bool,
    ) -> Result<Bytes, NoMemory>
        requires { IsTrue (is_name to.now) }
        ensures device { OnOk result (self.new ≡ (says_to line (Addresses.bare_address to.now) text.now private self.old).device) }
        ensures put { IfOk result (λ put. put.items ≡ (says_to line (Addresses.bare_address to.now) text.now private self.old).put) }
    {
        let to = address_of(alloc, to)?;
        let mut out = silence(alloc);
        self.submit(alloc, line, &to, text, private, &mut out)?;
        Ok(out.bytes)
    }

    /// The user asks for the archive's entries behind the log's last one, in pages of at most so many, by a line of the
    /// schedule (XEP-0313, section 4). Where the client refuses it the line is noted down, and nothing is put.
    pub fn catch_up(&mut self, alloc: Global, line: u64, most: u32) -> Result<Bytes, NoMemory>
        requires { (1 ≤ most) × (most ≤ 100) }
        ensures device { OnOk result (self.new ≡ (catches_up_on line most self.old).device) }
        ensures put { IfOk result (λ put. put.items ≡ (catches_up_on line most self.old).put) }
    {
        let mut out = silence(alloc);
        self.ask(alloc, line, most, &mut out)?;
        Ok(out.bytes)
    }
}
