//! One device.
ghost use Rattle.std.specs.Prelude.{◌≡◌, [], None, IfOk, OnOk};
ghost use Rattle.cmd_network.specs.Devices;
ghost use Rattle.cmd_network.specs.Devices.{closes_here, dials_at, forgets_all, hears, loses, unless_left};

use crate::talking::{close, dial, feed};
use base_io::{Bytes, NoMemory, Text};
use cl_core::Client;
use cmd_report::RefusedLines;
use std::alloc::Global;
use std::marker::Model;

/// A device: its client, the place of the connection that it has, the place of the newest one that it dialed, and the lines of
/// the schedule that its client refused. What a call's client puts is answered as bytes, for the pipe to the server.
///
/// After `NoMemory` a device is only dropped.
#[derive(Drop)]
pub struct Device {
    pub(crate) name: Text,
    pub(crate) account: Text,
    pub(crate) client: Client,
    pub(crate) here: Option<usize>,
    pub(crate) newest: Option<usize>,
    pub(crate) refused: RefusedLines,
}

impl Model for Device {
    ghost use Rattle.std.specs.Coded.{codes};
    ghost use Rattle.cmd_network.specs.Devices.{DeviceState};
    ghost use Rattle.xml_framer.specs.StateCodes.{state_coded};

    ghost Value = { DeviceState };

    ghost coded = { Prim.hlevel (codes, state_coded) };

    ghost view = { λ d. record { name = d.name; account = d.account; client = d.client; here = d.here; newest = d.newest; refused = d.refused.items } };
}

impl Device {
    /// A device before its first connection. It takes no memory.
    pub(crate) fn new(alloc: Global, name: Text, account: Text, client: Client) -> Device
        ensures { result ≡ record { name = name; account = account; client = client; here = None; newest = None; refused = [] } }
    {
        Device {
            name,
            account,
            client,
            here: None,
            newest: None,
            refused: RefusedLines::new(alloc),
        }
    }

    /// Its name.
    pub fn name(&self) -> &Text
        ensures { result.now ≡ self.now.name }
    {
        &self.name
    }

    /// Its client.
    pub fn client(&self) -> &Client
        ensures { result.now ≡ self.now.client }
    {
        &self.client
    }

    /// The place of the connection that it has. `None` where it never dialed, and where it left that one.
    pub fn here(&self) -> Option<usize>
        ensures { result ≡ self.now.here }
    {
        self.here
    }

    /// The place of the newest connection that it dialed.
    pub fn newest(&self) -> Option<usize>
        ensures { result ≡ self.now.newest }
    {
        self.newest
    }

    /// Whether it has the connection at a place.
    pub fn has_wire(&self, position: usize) -> bool
        ensures { result ≡ Devices.has_wire position self.now.here }
    {
        match self.here {
            Some(here) => here == position,
            None => false,
        }
    }

    /// Whether its client stands apart from any connection.
    pub fn is_left(&self) -> bool
        ensures { result ≡ Devices.is_left self.now.client }
    {
        !self.client.is_connected()
    }

    /// Whether its client stopped in the middle of an item of its connection.
    pub fn holds_part(&self) -> bool
        ensures { result ≡ Devices.holds_part self.now }
    {
        self.client.part().is_some()
    }

    /// It dials the connection at a place (RFC 6120, section 4.7): an earlier one is left.
    pub fn dial(
        &mut self,
        alloc: Global,
        entropy: &[u8; 24],
        position: usize,
    ) -> Result<Bytes, NoMemory>
        ensures device { OnOk result (self.new ≡ (dials_at entropy.now position self.old).device) }
        ensures put { IfOk result (λ put. put.items ≡ (dials_at entropy.now position self.old).put) }
    {
        let put = dial(alloc, &mut self.client, entropy)?;
        self.here = Some(position);
        self.newest = Some(position);
        Ok(put)
    }

    // Where its client stands apart it has no connection.
    fn leave_with_client(&mut self)
        ensures { self.new ≡ unless_left self.old }
    {
        if !self.client.is_connected() {
            self.here = None;
        }
    }

    /// Bytes of the server come on its connection. A fault of the server leaves the connection.
    pub fn hear(&mut self, alloc: Global, piece: &[u8]) -> Result<Bytes, NoMemory>
        ensures device { OnOk result (self.new ≡ (hears piece.now self.old).device) }
        ensures put { IfOk result (λ put. put.items ≡ (hears piece.now self.old).put) }
    {
        let put = feed(alloc, &mut self.client, piece)?;
        self.leave_with_client();
        Ok(put)
    }

    /// The end of its connection comes. The session stays, for a resumption (XEP-0198, section 5). It takes no memory.
    pub fn lose(&mut self)
        ensures { self.new ≡ loses self.old }
    {
        self.client.gone();
    }

    /// It leaves its connection, and its session ends. It takes no memory.
    pub fn forget(&mut self)
        ensures { self.new ≡ forgets_all self.old }
    {
        self.client.forget();
        self.here = None;
    }

    /// It closes its stream where one stands (RFC 6120, section 4.4), and then does as `forget`.
    pub fn close(&mut self, alloc: Global) -> Result<Bytes, NoMemory>
        ensures device { OnOk result (self.new ≡ (closes_here self.old).device) }
        ensures put { IfOk result (λ put. put.items ≡ (closes_here self.old).put) }
    {
        let put = close(alloc, &mut self.client)?;
        self.here = None;
        Ok(put)
    }
}
