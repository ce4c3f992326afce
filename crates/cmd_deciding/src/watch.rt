//! A world that is watched.
ghost use Rattle.std.specs.Prelude.{◌≡◌, map};
ghost use Rattle.cl_intents.specs.Intents.{without_rooms};

use cl_intents::Intents;
use cmd_world::World;
use std::marker::Model;

/// A world, and the intents of each of its devices, in the order of the devices. Contracts don't see for how many tries there
/// is room.
///
/// After `NoMemory` it is only dropped.
#[derive(Drop)]
pub struct Watch {
    pub(crate) world: World,
    pub(crate) intents: Vec<Intents>,
}

impl Model for Watch {
    ghost use Rattle.std.specs.Prelude.{map};
    ghost use Rattle.std.specs.Coded.{codes};
    ghost use Rattle.xml_framer.specs.StateCodes.{state_coded};
    ghost use Rattle.cl_intents.specs.Intents.{without_rooms};
    ghost use Rattle.cmd_resolving.specs.Expansion.{Watching};

    ghost Value = { Watching };

    ghost coded = { Prim.hlevel (codes, state_coded) };

    ghost view = { λ w. record { world = w.world; intents = map without_rooms w.intents.items } };
}

impl Watch {
    /// The world.
    pub fn world(&self) -> &World
        ensures { result.now ≡ self.now.world }
    {
        &self.world
    }

    /// The intents of each device.
    pub fn intents(&self) -> &[Intents]
        ensures { map without_rooms result.now ≡ self.now.intents }
    {
        self.intents.as_slice()
    }
}
