//! A file of intents.
use base_io::Numbers;
use cmd_schedule::WireSchedule;
use std::marker::Model;

/// A file of intents: the schedule that it is where `intent` is read as `say` and `resolve` as `catchup`, and the numbers
/// of its `intent` lines and of its `resolve` lines, ascending.
#[derive(Drop)]
pub struct IntentFile {
    pub schedule: WireSchedule,
    pub intents: Numbers,
    pub resolves: Numbers,
}

impl Model for IntentFile {
    ghost use Rattle.cmd_intents.specs.Files.{FileView};

    ghost Value = { FileView };

    ghost view = { λ f. record { schedule = f.schedule; intents = f.intents.items; resolves = f.resolves.items } };
}
