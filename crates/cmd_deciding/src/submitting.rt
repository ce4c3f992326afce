//! Submissions of intents, and requests for the archive.
ghost use Rattle.std.specs.Prelude.{◌≡◌, ◌+◌, ◌≤◌, Some, IfOk, OnOk, slice_get};
ghost use Rattle.std.specs.Option.{option_map};
ghost use Rattle.cmd_resolving.specs.Expansion;
ghost use Rattle.cmd_resolving.specs.Expansion.{Asked, begun, is_try, noted_try};
ghost use Rattle.cmd_deciding.specs.Looks.{EachNamed};
ghost use Rattle.cmd_deciding.specs.Turns.{before_of, caught_up, goes_on, is_accepted, new_submitted, submitted, submitted_for, try_in, try_of_said, try_since, turned, turns};

use crate::lists::{add_at, count_at, intent_at, next_at, note_at};
use crate::watch::Watch;
use base_io::{NoMemory, Text};
use cl_intents::{Next, Try};
use cmd_network::Device;
use sm_outbox::Said;
use std::alloc::Global;

// How many submissions a client tells of, and how many entries its log has.
#[derive(Clone, Copy, Debug, PartialEq, Eq)]
struct Before {
    said: usize,
    logged: u64,
}

fn before_of(device: &Device) -> Before
    ensures { result ≡ before_of device.now }
{
    let client = device.client();
    Before {
        said: client.said().len(),
        logged: client.log().entries().len() as u64,
    }
}

fn try_of_said(logged: u64, said: Option<&Said>) -> Option<Try>
    ensures { result ≡ try_of_said logged (option_map (λ s. s.now) said.entry) }
{
    match said {
        Some(said) => Some(Try {
            epoch: said.epoch,
            n: said.n,
            logged,
        }),
        None => None,
    }
}

// The first submission after those that there were before.
fn try_in(before: Before, device: &Device) -> Option<Try>
    ensures { result ≡ try_in before device.now }
{
    try_of_said(before.logged, device.client().said().get(before.said))
}

impl Watch {
    // What there was of the device at an index. `None` where there is no such device.
    fn before(&self, index: usize) -> Option<Before>
        ensures { result ≡ option_map before_of (slice_get self.now.world.devices index) }
    {
        match self.world.devices().get(index) {
            Some(device) => Some(before_of(device)),
            None => None,
        }
    }

    // What it submitted since.
    fn try_since(&self, index: usize, before: Option<Before>) -> Option<Try>
        ensures { result ≡ try_since before (slice_get self.now.world.devices index) }
    {
        let Some(before) = before else {
            return None;
        };
        match self.world.devices().get(index) {
            Some(device) => try_in(before, device),
            None => None,
        }
    }

    // A try more of the intent of a number of the device at an index.
    fn note(&mut self, index: usize, intent: u64, one: Try) -> Result<(), NoMemory>
        ensures { OnOk result (self.new ≡ noted_try (submitted_for index intent) (Some one) self.old) }
    {
        note_at(&mut self.intents, index, intent, one)
    }

    // What the device submitted since is noted as a try. Whether it was one.
    fn note_since(
        &mut self,
        index: usize,
        intent: u64,
        before: Option<Before>,
    ) -> Result<bool, NoMemory>
        ensures state { OnOk result (self.new ≡ noted_try (submitted_for index intent) (try_since before (slice_get self.old.world.devices index)) self.old) }
        ensures accepted { IfOk result (λ is. is ≡ is_try (try_since before (slice_get self.old.world.devices index))) }
    {
        match self.try_since(index, before) {
            Some(one) => {
                self.note(index, intent, one)?;
                Ok(true)
            }
            None => Ok(false),
        }
    }

    // The message of an intent of the device at an index is submitted by a line, and a submission that the client accepts is a
    // try. Whether it did.
    #[tactic(auto, using(crate::proofs::Tried::submitted_by_steps, crate::proofs::Tried::accepted_by_steps, crate::proofs::Tried::nothing_submitted, crate::proofs::Tried::nothing_accepted))]
    fn submit(&mut self, number: u64, index: usize, intent: u64) -> Result<bool, NoMemory>
        requires { EachNamed self.old.intents }
        ensures state { OnOk result (self.new ≡ submitted number index intent self.old) }
        ensures accepted { IfOk result (λ is. is ≡ is_accepted index intent self.old) }
    {
        let before = self.before(index);
        let Some(one) = intent_at(self.intents.as_slice(), index, intent) else {
            return Ok(false);
        };
        self.world
            .say(index, number, one.to.as_str(), one.text.as_str(), false)?;
        self.look_at_all();
        self.note_since(index, intent, before)
    }

    // The archive of the device at an index is asked for by a line.
    fn catch_up(&mut self, number: u64, index: usize, most: u32) -> Result<(), NoMemory>
        requires { (1 ≤ most) × (most ≤ 100) }
        ensures { OnOk result (self.new ≡ caught_up number index most self.old) }
    {
        self.world.catch_up(index, number, most)?;
        self.look_at_all();
        Ok(())
    }

    // What is wanted next of the intents of the device at an index.
    #[tactic(auto, using(crate::proofs::Rooms::next_there, crate::proofs::Rooms::no_device))]
    fn next_at(&mut self, index: usize) -> Result<Next, NoMemory>
        ensures exact { IfOk result (λ next. next ≡ Expansion.next_at index self.old) }
        ensures same { self.new ≡ self.old }
    {
        match self.world.devices().get(index) {
            Some(device) => next_at(&mut self.intents, index, device.client()),
            None => Ok(Next::Rest),
        }
    }

    // A turn of a resolve line. Whether another one follows.
    fn turn(&mut self, number: u64, index: usize, most: u32) -> Result<bool, NoMemory>
        requires named { EachNamed self.old.intents }
        requires most { (1 ≤ most) × (most ≤ 100) }
        ensures state { OnOk result (self.new ≡ turned number index most self.old) }
        ensures more { IfOk result (λ more. more ≡ goes_on index self.old) }
    {
        match self.next_at(index)? {
            Next::Submit { intent } => self.submit(number, index, intent),
            Next::CatchUp => {
                self.catch_up(number, index, most)?;
                Ok(false)
            }
            Next::Rest => Ok(false),
        }
    }

    // So many turns at most.
    fn turns(&mut self, left: u64, number: u64, index: usize, most: u32) -> Result<(), NoMemory>
        requires named { EachNamed self.old.intents }
        requires most { (1 ≤ most) × (most ≤ 100) }
        ensures { OnOk result (self.new ≡ turns left number index most self.old) }
    {
        for i in 0..left {
            if !self.turn(number, index, most)? {
                return Ok(());
            }
        }
        Ok(())
    }

    /// Turns of a resolve line, one more at most than the device has intents.
    pub(crate) fn resolve(&mut self, number: u64, index: usize, most: u32) -> Result<(), NoMemory>
        requires named { EachNamed self.old.intents }
        requires most { (1 ≤ most) × (most ≤ 100) }
        ensures { OnOk result (self.new ≡ turns (Expansion.count_at index self.old.intents + 1) number index most self.old) }
    {
        let left = self.count_at(index);
        if !self.turn(number, index, most)? {
            return Ok(());
        }
        self.turns(left, number, index, most)
    }

    // How many intents the device at an index has.
    fn count_at(&self, index: usize) -> u64
        ensures { result ≡ Expansion.count_at index self.now.intents }
    {
        count_at(self.intents.as_slice(), index)
    }

    // A new intent of the device at an index.
    fn add(&mut self, alloc: Global, index: usize, to: &Text, text: &Text) -> Result<(), NoMemory>
        ensures { OnOk result (self.new ≡ begun (Asked.NewIntent index to.now text.now) self.old) }
    {
        add_at(alloc, &mut self.intents, index, to, text)
    }

    /// A new intent of the device at an index is added, and submitted by a line.
    pub(crate) fn submit_new(
        &mut self,
        alloc: Global,
        number: u64,
        index: usize,
        to: &Text,
        text: &Text,
    ) -> Result<(), NoMemory>
        requires { EachNamed (begun (Asked.NewIntent index to.now text.now) self.old).intents }
        ensures { OnOk result (self.new ≡ new_submitted number index to.now text.now self.old) }
    {
        self.add(alloc, index, to, text)?;
        let intent = self.count_at(index);
        self.submit(number, index, intent)?;
        Ok(())
    }
}
