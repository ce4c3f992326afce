//! A file of restarts.
use base_io::Numbers;
use cmd_schedule::WireSchedule;
use std::marker::Model;

/// A file of restarts: the schedule that it is where `restart` is read as `tick 300000`, and the numbers of its `restart`
/// lines, ascending.
#[derive(Drop)]
pub struct RestartFile {
    pub schedule: WireSchedule,
    pub restarts: Numbers,
}

impl Model for RestartFile {
    ghost use Rattle.cmd_restarts.specs.Files.{FileView};

    ghost Value = { FileView };

    ghost view = { λ f. record { schedule = f.schedule; restarts = f.restarts.items } };
}
