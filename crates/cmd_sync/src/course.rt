//! How a script is done, piece by piece of what the server sends.
ghost use Rattle.std.specs.Prelude.{◌≡◌, ◌+◌, ◌^◌, ◌<◌, [], true, IsTrue, OnOk, IfOk, length};
ghost use Rattle.std.specs.List.{list_all};
ghost use Rattle.cl_core.specs.Values.{ClientValue, fed_of};
ghost use Rattle.cmd_sync.specs.Courses.{begins, begun, done_with, goes_on, is_awaiting, looks, quiet, seen_in, taken, takes};
ghost use Rattle.cmd_sync.specs.Views.{course_of, course_step_of, fed_in};
ghost use Rattle.cmd_sync.specs.Scripts.{may_do};
ghost use Rattle.cmd_sync.specs.declared.script.Step.TheVariants.{Say, CatchUp};

use crate::events::is_last_acknowledged;
use crate::failure::PeerFailure;
use crate::progress::Course;
use crate::running::MOST_RECEIVED;
use crate::script::{Step, Steps};
use crate::seen::{Seen, seen_over};
use crate::stage::Stage;
use base_io::{Bytes, NoMemory, Text};
use cl_core::{CatchUpStart, Client, ClientOut, Events, SayFault};
use im_jid::Jid;
use std::alloc::Global;
use std::collections::VecDeque;

fn nothing(alloc: Global) -> ClientOut
    ensures { (client : ClientValue) → fed_of client result ≡ quiet client }
{
    ClientOut {
        bytes: Bytes::new(alloc),
        events: Events::new(alloc),
    }
}

impl Course {
    /// A connection begins, and what is put is answered. A refusal for want of memory is the only one.
    pub fn begin(
        alloc: Global,
        client: Client,
        entropy: &[u8; 24],
        steps: Steps,
    ) -> Result<(Course, Bytes), NoMemory>
        requires { IsTrue (list_all may_do steps.items) }
        ensures { IfOk result (λ r. course_step_of r.0 r.1.items ≡ begun client entropy.now steps.items) }
    {
        let mut client = client;
        let mut out = nothing(alloc);
        client.dial(alloc, entropy, &mut out)?;
        let course = Course {
            client,
            stage: Stage::Awaits(None),
            steps: VecDeque::from_vec(steps.into_items()),
            total: 0,
        };
        Ok((course, out.bytes))
    }

    // The stream is closed, and all is done.
    fn close(&mut self, alloc: Global, out: &mut ClientOut) -> Result<(), NoMemory>
        requires { self.old.steps.items ≡ [] }
        ensures { OnOk result (course_step_of self.new out.new.bytes.items ≡ goes_on (fed_in self.old out.old) [] self.old.total) }
    {
        self.client.close(alloc, out)?;
        self.stage = Stage::Done;
        Ok(())
    }

    // A message goes out.
    fn say(
        &mut self,
        alloc: Global,
        to: Jid,
        text: Text,
        out: &mut ClientOut,
    ) -> Result<(), NoMemory>
        ensures { OnOk result (course_step_of self.new out.new.bytes.items ≡ begins (fed_in self.old out.old) (Say to text) self.old.steps.items self.old.total) }
    {
        match self.client.say(alloc, &to, text.as_str(), false, out) {
            Ok(_) => self.stage = Stage::Awaits(Some(Step::Say { to, text })),
            Err(SayFault::NoMemory) => return Err(NoMemory),
            Err(fault) => self.stage = Stage::Failed(PeerFailure::NotSaid(fault)),
        }
        Ok(())
    }

    // A page is asked for.
    fn ask(&mut self, alloc: Global, max: u32, out: &mut ClientOut) -> Result<(), NoMemory>
        requires { IsTrue (may_do (CatchUp max)) }
        ensures { OnOk result (course_step_of self.new out.new.bytes.items ≡ begins (fed_in self.old out.old) (CatchUp max) self.old.steps.items self.old.total) }
    {
        match self.client.catch_up(alloc, max, out) {
            Ok(()) => self.stage = Stage::Awaits(Some(Step::CatchUp { max })),
            Err(CatchUpStart::NoMemory) => return Err(NoMemory),
            Err(fault) => self.stage = Stage::Failed(PeerFailure::NotAsked(fault)),
        }
        Ok(())
    }

    // A step begins.
    fn begin_step(&mut self, alloc: Global, step: Step, out: &mut ClientOut) -> Result<(), NoMemory>
        requires { IsTrue (may_do step) }
        ensures { OnOk result (course_step_of self.new out.new.bytes.items ≡ begins (fed_in self.old out.old) step self.old.steps.items self.old.total) }
    {
        match step {
            Step::Say { to, text } => self.say(alloc, to, text, out),
            Step::CatchUp { max } => self.ask(alloc, max, out),
        }
    }

    // The next step begins, or all is done.
    fn go_on(&mut self, alloc: Global, out: &mut ClientOut) -> Result<(), NoMemory>
        ensures { OnOk result (course_step_of self.new out.new.bytes.items ≡ goes_on (fed_in self.old out.old) self.old.steps.items self.old.total) }
    {
        match self.steps.pop_front() {
            Some(step) => self.begin_step(alloc, step, out),
            None => self.close(alloc, out),
        }
    }

    // What was awaited is done.
    fn finish(
        &mut self,
        alloc: Global,
        late: Option<PeerFailure>,
        out: &mut ClientOut,
    ) -> Result<(), NoMemory>
        ensures { OnOk result (course_step_of self.new out.new.bytes.items ≡ done_with (fed_in self.old out.old) self.old.steps.items self.old.total late) }
    {
        let Some(failure) = late else {
            return self.go_on(alloc, out);
        };
        if self.steps.is_empty() {
            return self.go_on(alloc, out);
        }
        self.stage = Stage::Failed(failure);
        Ok(())
    }

    // What was seen takes its effect.
    fn look(&mut self, alloc: Global, seen: Seen, out: &mut ClientOut) -> Result<(), NoMemory>
        ensures { OnOk result (course_step_of self.new out.new.bytes.items ≡ looks (fed_in self.old out.old) self.old.stage self.old.steps.items self.old.total seen) }
    {
        match seen {
            Seen::Still => Ok(()),
            Seen::Fails(failure) => {
                self.stage = Stage::Failed(failure);
                Ok(())
            }
            Seen::Does(late) => self.finish(alloc, late, out),
        }
    }

    // What the events of a piece say.
    fn look_at(&self, out: &ClientOut) -> Seen
        ensures { result ≡ seen_in (fed_in self.now out.now) self.now.stage }
    {
        let acknowledged = is_last_acknowledged(self.client.said());
        seen_over(&self.stage, acknowledged, out.events.as_slice())
    }

    // A piece was handed to the client.
    fn judge(&mut self, alloc: Global, out: &mut ClientOut) -> Result<(), NoMemory>
        ensures { OnOk result (course_step_of self.new out.new.bytes.items ≡ taken (fed_in self.old out.old) self.old.stage self.old.steps.items self.old.total) }
    {
        if self.total > MOST_RECEIVED {
            self.stage = Stage::Failed(PeerFailure::TooMuch);
            return Ok(());
        }
        let seen = self.look_at(out);
        self.look(alloc, seen, out)
    }

    /// Takes a piece of what the server sends, and answers what is put then. A refusal for want of memory is the only one.
    pub fn take(&mut self, alloc: Global, piece: &[u8]) -> Result<Bytes, NoMemory>
        requires awaited { is_awaiting self.old.stage ≡ true }
        requires few { self.old.total + length piece.now < 2 ^ 64 }
        ensures { IfOk result (λ put. course_step_of self.new put.items ≡ takes (course_of self.old) piece.now) }
    {
        let mut out = nothing(alloc);
        self.client.bytes(alloc, piece, &mut out)?;
        self.total += piece.len() as u64;
        self.judge(alloc, &mut out)?;
        Ok(out.bytes)
    }
}
