//! How far a script is done.
ghost use Rattle.std.specs.Prelude.{◌≡◌};
ghost use Rattle.cmd_sync.specs.Courses.{is_awaiting};

use crate::failure::PeerFailure;
use crate::script::Step;

/// How far a script is done.
#[derive(Drop)]
pub enum Stage {
    /// This step is being done; none, where the client isn't online yet.
    Awaits(Option<Step>),
    /// All steps are done, and the stream is closed.
    Done,
    /// The server has to answer for it that the rest is not done.
    Failed(PeerFailure),
}

impl Stage {
    /// Whether something is awaited of the server.
    pub fn is_awaiting(&self) -> bool
        ensures { result ≡ is_awaiting self.now }
    {
        match self {
            Stage::Awaits(_) => true,
            Stage::Done | Stage::Failed(_) => false,
        }
    }
}
