//! Threads that were started, and not yet joined.
ghost use Rattle.std.specs.Prelude.{◌≡◌, IfOk};

use crate::job::Job;
use base_io::Failed;
use std::marker::Model;
use std::snapshot::Snapshot;
use std::thread;
use std::thread::{Promise, PromisedHandle, Threads};

/// What a thread promises when it is started: its answer is one to its job.
#[derive(Drop)]
pub struct Does<J>(Snapshot<J>);

impl<J: Job> Promise<J::Answer> for Does<J> {
    ghost kept_by = { λ p answer. J.keeps p.0.value answer };
}

/// A thread that was started, and not yet joined. Contracts see it as its job. One that is dropped is never joined, and its
/// answer is lost.
#[derive(Drop)]
pub struct Worker<J: Job> {
    thread: PromisedHandle<J::Answer, Does<J>>,
}

impl<J: Job> Model for Worker<J> {
    ghost Value = { J };

    ghost view = { λ w. w.thread.promise.0.value };
}

impl<J: Job> Worker<J> {
    /// Waits until the job is done, and answers what it answered.
    pub fn join<R: Threads>(self, rt: &R) -> J::Answer
        ensures { J.keeps self result }
    {
        self.thread.join(rt)
    }
}

/// Starts a thread for the job. A refusal drops the job.
pub(crate) fn begin<R: Threads, J: Job + Send + Drop + 'static>(
    rt: &R,
    job: J,
) -> Result<Worker<J>, Failed>
where
    J::Answer: Send + Drop + 'static,
    ensures { IfOk result (λ worker. worker ≡ job) }
{
    let promise = Does(Snapshot::of(&job));
    match thread::spawn_with(rt, promise, move || job.work()) {
        Ok(thread) => Ok(Worker { thread }),
        Err(_) => Err(Failed),
    }
}
