//! The submissions of a client, and what is known of them.
ghost use Rattle.std.specs.Prelude.{◌≡◌, ◌-◌, ◌<◌, ◌≤◌, ◌^◌, ◌==◌, ◌++◌, drop, length, map, take, vec_capacity, vec_len, OnOk};
ghost use Rattle.std.specs.List.{list_any};
ghost use Rattle.std.specs.List.Sorted.{IsNonDecreasingBy};
ghost use Rattle.sm_outbox.specs.Kept.{numbers_of, position_at};
ghost use Rattle.sm_outbox.specs.Submissions.{acknowledged, all_said, in_state, is_submission, next_number, nothing_said, position, position_of, said_of, undecided, with_said};

use crate::origins::read_origin;
use crate::said::{Said, SaidState};
use base_io::{NoMemory, Text};
use std::alloc::Global;
use std::marker::Model;

/// All submissions, of which the last ones wait in the queue of the session. Contracts see those that are settled and those
/// that wait; how many epochs began; how many submissions there were since; and the number `spare` of further ones that fit
/// without more memory.
///
/// Room is made first, by `reserve`. No other call takes memory, and each submission is settled once.
#[derive(Drop)]
pub struct Submissions {
    items: Vec<Said>,
    settled: usize,
    epoch: u64,
    n: u64,
}

impl Model for Submissions {
    ghost use Rattle.std.specs.Prelude.{◌≤◌, ◌-◌, take, drop, length, map, vec_len, vec_capacity};
    ghost use Rattle.sm_outbox.specs.Kept.{IsNumbered, SubmissionsView, numbers_of};

    ghost Value = { SubmissionsView };

    ghost view = { λ s. record {
      said = record { settled = take s.settled s.items.items; waiting = drop s.settled s.items.items };
      epoch = s.epoch;
      n = s.n;
      spare = vec_capacity s.items - vec_len s.items;
    } };

    ghost invariant = { λ s. (s.settled ≤ length s.items.items) × IsNumbered (map numbers_of s.items.items) s.epoch s.n };
}

// Sets the state of the submissions in a stretch.
fn settle(items: &mut [Said], state: SaidState)
    ensures { items.new ≡ map (in_state state) items.old }
{
    for i in 0..items.len() {
        items[i].state = state;
    }
}

// Sets the state of the submissions from one place to another. It touches these alone.
fn settle_part(items: &mut Vec<Said>, from: usize, to: usize, state: SaidState)
    requires { (from ≤ to) × (to ≤ length items.old.items) }
    ensures items { items.new.items ≡ take from items.old.items ++ map (in_state state) (take (to - from) (drop from items.old.items)) ++ drop to items.old.items }
    ensures within { (from ≤ to) × (to ≤ length items.new.items) }
    ensures len { vec_len items.new ≡ vec_len items.old }
    ensures capacity { vec_capacity items.new ≡ vec_capacity items.old }
{
    settle(&mut items[from..to], state);
}

// The number behind another: they stay at 2^64 - 1 once there.
fn number_after(n: u64) -> u64
    ensures { result ≡ next_number n }
{
    n.saturating_add(1)
}

// Where a number of an epoch stands among all.
fn position(epoch: u64, n: u64) -> u128
    ensures value { result ≡ position epoch n }
    ensures fits { (epoch < 2 ^ 64) × (n < 2 ^ 64) }
{
    u128::from(epoch) * 18_446_744_073_709_551_616 + u128::from(n)
}

// Whether one of the submissions stands at a place, where they ascend.
fn is_among(items: &[Said], at: u128) -> bool
    requires { IsNonDecreasingBy position_at (map numbers_of items.now) }
    ensures { result ≡ list_any (λ said. position_of said == at) items.now }
{
    let first = items.partition_point(|said| position(said.epoch, said.n) < at);
    match items.get(first) {
        Some(said) => position(said.epoch, said.n) == at,
        None => false,
    }
}

// The same of submissions in any order.
fn is_anywhere(items: &[Said], at: u128) -> bool
    ensures { result ≡ list_any (λ said. position_of said == at) items.now }
{
    items.iter().any(|said| position(said.epoch, said.n) == at)
}

impl Submissions {
    /// No submissions, before the first epoch. It takes no memory.
    pub fn new(alloc: Global) -> Submissions
        ensures said { result.said ≡ nothing_said }
        ensures epoch { result.epoch ≡ 0 }
        ensures n { result.n ≡ 0 }
    {
        Submissions {
            items: Vec::new(alloc),
            settled: 0,
            epoch: 0,
            n: 0,
        }
    }

    /// How many epochs began.
    pub fn epoch(&self) -> u64
        ensures { result ≡ self.now.epoch }
    {
        self.epoch
    }

    /// The number that the next submission gets.
    pub fn next_number(&self) -> u64
        ensures { result ≡ next_number self.now.n }
    {
        number_after(self.n)
    }

    /// Begins the next epoch, in which submissions are numbered from 1 again. It takes no memory.
    pub fn begin_epoch(&mut self)
        ensures said { self.new.said ≡ self.old.said }
        ensures epoch { self.new.epoch ≡ next_number self.old.epoch }
        ensures n { self.new.n ≡ 0 }
        ensures spare { self.new.spare ≡ self.old.spare }
    {
        self.epoch = number_after(self.epoch);
        self.n = 0;
    }

    /// Makes room for one. The submissions stay on each outcome.
    pub fn reserve(&mut self) -> Result<(), NoMemory>
        ensures ok { OnOk result (1 ≤ self.new.spare) }
        ensures said { self.new.said ≡ self.old.said }
        ensures epoch { self.new.epoch ≡ self.old.epoch }
        ensures n { self.new.n ≡ self.old.n }
    {
        self.items.reserve(1)?;
        Ok(())
    }

    /// Adds a submission, which waits, under the next number of the epoch. It moves the texts, and takes no memory.
    pub fn say_reserved(&mut self, to: Text, text: Text, private: bool)
        requires { 1 ≤ self.old.spare }
        ensures said { self.new.said ≡ with_said self.old.said (said_of self.old.epoch self.old.n to text private) }
        ensures epoch { self.new.epoch ≡ self.old.epoch }
        ensures n { self.new.n ≡ next_number self.old.n }
    {
        let n = number_after(self.n);
        self.n = n;
        let said = Said {
            epoch: self.epoch,
            n,
            to,
            text,
            private,
            state: SaidState::Waiting,
        };
        match self.items.push(said) {
            Ok(()) => {}
            Err(_) => unreachable!(),
        }
    }

    /// The first `count` that wait, or all where fewer do, are acknowledged. It touches these alone, and takes no memory.
    pub fn acknowledge(&mut self, count: usize)
        ensures said { self.new.said ≡ acknowledged count self.old.said }
        ensures epoch { self.new.epoch ≡ self.old.epoch }
        ensures n { self.new.n ≡ self.old.n }
        ensures spare { self.new.spare ≡ self.old.spare }
    {
        let end = self.settled + count.min(self.items.len() - self.settled);
        settle_part(&mut self.items, self.settled, end, SaidState::Acknowledged);
        self.settled = end;
    }

    /// The session ended: of all that wait it isn't known what became of them. It touches these alone, and takes no memory.
    pub fn give_up(&mut self)
        ensures said { self.new.said ≡ undecided self.old.said }
        ensures epoch { self.new.epoch ≡ self.old.epoch }
        ensures n { self.new.n ≡ self.old.n }
        ensures spare { self.new.spare ≡ self.old.spare }
    {
        let end = self.items.len();
        settle_part(&mut self.items, self.settled, end, SaidState::Undecided);
        self.settled = end;
    }

    /// All submissions in the order of their numbers, the settled ones first.
    pub fn as_slice(&self) -> &[Said]
        ensures { result.now ≡ all_said self.now.said }
    {
        self.items.as_slice()
    }

    /// Whether an id is the origin id of a submission of the resource (XEP-0359). It looks at as many submissions as their
    /// number has binary digits, and takes no memory.
    pub fn is_submission(&self, resource: &str, id: &str) -> bool
        ensures { result ≡ is_submission resource.now id.now self.now.said }
    {
        let items = self.items.as_slice();
        let Some((epoch, n)) = read_origin(resource, id) else {
            return false;
        };
        let at = position(epoch, n);
        // Behind the last epoch numbers come again, in any order.
        if self.epoch == u64::MAX {
            return is_anywhere(items, at);
        }
        is_among(items, at)
    }
}
