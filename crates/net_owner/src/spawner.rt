//! Spawners: what starts threads.
ghost use Rattle.std.specs.Prelude.{◌≡◌, ◌≤◌, ℕ, IfOk, OnErr, OnOk};
ghost use Rattle.base_io.specs.Counts.{HasCause, Rose, counted};

use crate::job::Job;
use crate::worker::{Worker, begin};
use base_io::Failed;
use std::thread::Threads;

/// What starts threads. Contracts alone see two counts, which stay at 2^64 - 1 once there: `faults`, how many of its calls
/// failed, and `started`, how many threads it started.
pub trait Spawner {
    type Runtime: Threads;

    ghost faults: { Self → ℕ };

    ghost started: { Self → ℕ };

    /// What the threads are started by.
    fn runtime(&self) -> &Self::Runtime;

    /// Asks whether the next thread may be started. `Failed` comes only where `faults` rose in this call.
    fn ask(&mut self) -> Result<(), Failed>
        ensures cause { HasCause (faults self.old) (faults self.new) result }
        ensures started { started self.new ≡ started self.old };

    /// Counts a thread that could not be started.
    fn count(&mut self)
        ensures rose { Rose (faults self.old) (faults self.new) }
        ensures later { faults self.old ≤ faults self.new }
        ensures started { started self.new ≡ started self.old };

    /// Counts a thread that was started.
    fn count_started(&mut self)
        ensures started { started self.new ≡ counted (started self.old) }
        ensures faults { faults self.new ≡ faults self.old };

    /// Starts a thread that does the job, and counts it. `Failed` comes only where `faults` rose in this call, and then the job
    /// was dropped, and no thread is counted.
    final fn start<J: Job + Send + Drop + 'static>(&mut self, job: J) -> Result<Worker<J>, Failed>
    where
        J::Answer: Send + Drop + 'static,
        ensures cause { HasCause (faults self.old) (faults self.new) result }
        ensures job { IfOk result (λ worker. worker ≡ job) }
        ensures started { OnOk result (started self.new ≡ counted (started self.old)) }
        ensures not_started { OnErr result (started self.new ≡ started self.old) }
    {
        self.ask()?;
        match begin(self.runtime(), job) {
            Ok(worker) => {
                self.count_started();
                Ok(worker)
            }
            Err(_) => {
                self.count();
                Err(Failed)
            }
        }
    }
}
