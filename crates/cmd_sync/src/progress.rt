//! A script as it is done.
ghost use Rattle.std.specs.Prelude.{IsTrue};
ghost use Rattle.std.specs.List.{list_all};
ghost use Rattle.cmd_sync.specs.Scripts.{may_do};

use crate::script::Step;
use crate::stage::Stage;
use cl_core::Client;
use std::collections::VecDeque;

/// A script as it is done: the client, how far it is done, the steps that are not begun, and how many bytes came.
#[derive(Drop)]
pub struct Course {
    pub client: Client,
    pub stage: Stage,
    pub steps: VecDeque<Step>,
    pub total: u64,
    ghost right: { IsTrue (list_all may_do steps.items) },
}
