//! The world, and what it begins with.
//!
//! In a world a device whose connection ended still has it, until it dials, closes or forgets; one whose client left
//! for a fault of the server has none. Where a line hands no bytes to the server, the server isn't called. A line
//! whose device or connection isn't there has no moves. In a take, digits that spell no number below 2^64 count as 0.
//!
//! A world has all accounts and devices that its schedule declares anywhere from the start. A submission that the
//! client refuses as no text that can be sent is no refused line: no schedule has such a text.

use base_io::{NameIndex, Names};
use cmd_network::{Device, Wire};
use cmd_report::TakeLines;
use cmd_schedule::Version;
use srv_core::Server;
use std::alloc::Global;
use std::marker::Model;

/// A world: the server of the schedule's accounts, its devices with their clients, the connections that were dialed so far, the
/// clock, and what the server took so far. Contracts see what its definition has.
///
/// After `NoMemory` a world is only dropped.
#[derive(Drop)]
pub struct World {
    pub(crate) alloc: Global,
    pub(crate) version: Version,
    pub(crate) moment: u64,
    pub(crate) server: Server,
    pub(crate) accounts: Names,
    pub(crate) index: NameIndex,
    pub(crate) devices: Vec<Device>,
    pub(crate) wires: Vec<Wire>,
    pub(crate) takes: TakeLines,
}

impl Model for World {
    ghost use Rattle.std.specs.Coded.{codes};
    ghost use Rattle.xml_framer.specs.StateCodes.{state_coded};
    ghost use Rattle.cmd_world.specs.Worlds as worlds;

    ghost Value = { worlds.ByteWorld };

    ghost coded = { Prim.hlevel (codes, state_coded) };

    ghost view = { λ w. record { version = w.version; moment = w.moment; server = w.server; accounts = w.accounts.items; names = w.index; devices = w.devices.items; wires = w.wires.items; takes = w.takes.items } };
}
