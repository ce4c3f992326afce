//! The intents of a device.
//!
//! It is noted of the client in which epoch it is, and since which one a complete page was asked for. A page is counted from
//! the first look at an epoch on, so whoever runs a client looks at it after each call.
ghost use Rattle.std.specs.Prelude.{◌≡◌, ◌==◌, ◌+◌, ◌<◌, ◌≤◌, drop, length, map, slice_get, IfOk, IfSome, OnErr, OnOk, if◌then◌else◌};
ghost use Rattle.std.specs.Option.{option_map};
ghost use Rattle.cl_intents.specs.Intents as calls;
ghost use Rattle.cl_intents.specs.Intents.{HasRoom, changed_at, intent_under, next_of, nothing_intended, observed, room_of, room_under, state_under, tried_again, with_intent, with_try, without_room, without_rooms};

use crate::states::{IntentState, state_of};
use base_io::{ListOf, NoMemory, Text};
use cl_core::Client;
use mam_log::Tile;
use std::alloc::Global;
use std::marker::Model;

/// A submission for an intent: its epoch and its number there, and how many entries the log had before it.
#[derive(Clone, Copy, Debug, PartialEq, Eq)]
pub struct Try {
    pub epoch: u64,
    pub n: u64,
    pub logged: u64,
}

/// A message that is to be sent: to whom, its text, and its tries in order.
#[derive(Drop)]
pub struct Intent {
    pub to: Text,
    pub text: Text,
    pub tries: ListOf<Try>,
}

/// What is wanted next.
#[derive(Clone, Copy, Debug, PartialEq, Eq)]
pub enum Next {
    /// The intent of this number is to be submitted.
    Submit { intent: u64 },
    /// The account's archive is to be asked for, since an intent is undecided.
    CatchUp,
    /// Nothing.
    Rest,
}

/// The intents of a device, under the numbers 1, 2, 3 and so on.
#[derive(Drop)]
pub struct Intents {
    full: Text,
    intents: Vec<Intent>,
    seen: u64,
    mark: u64,
    sure: u64,
}

impl Model for Intents {
    ghost use Rattle.cl_intents.specs.Intents.{IntentsView};

    ghost Value = { IntentsView };

    ghost view = { λ v. record { full = v.full; intents = v.intents.items; seen = v.seen; mark = v.mark; sure = v.sure } };
}

impl Intent {
    // Room for a try.
    fn make_room(&mut self) -> Result<(), NoMemory>
        ensures same { without_room self.new ≡ without_room self.old }
        ensures ok { OnOk result (1 ≤ self.new.tries.spare) }
    {
        self.tries.reserve(1)
    }

    // A try more.
    fn push(&mut self, one: Try)
        requires { 1 ≤ self.old.tries.spare }
        ensures { without_room self.new ≡ without_room (tried_again one self.old) }
    {
        self.tries.push_reserved(one);
    }
}

// The pages from an index on.
fn tiles_from(tiles: &[Tile], index: u64) -> &[Tile]
    ensures { result.now ≡ drop index tiles.now }
{
    match tiles.get(index as usize..) {
        Some(rest) => rest,
        None => &[],
    }
}

fn has_complete(tiles: &[Tile]) -> bool
    ensures { result ≡ calls.has_complete tiles.now }
{
    tiles.iter().any(|tile| tile.complete)
}

// What is known of an intent.
fn intent_state(full: &str, sure: u64, client: &Client, intent: &Intent) -> IntentState
    ensures { result ≡ calls.intent_state full.now sure client.now.client intent.now }
{
    match last_try(intent.tries.as_slice()) {
        Some(last) => state_of(full, sure, client, last),
        None => IntentState::Fresh,
    }
}

fn last_try(tries: &[Try]) -> Option<Try>
    ensures { result ≡ calls.last_try tries.now }
{
    match tries.get(tries.len().saturating_sub(1)) {
        Some(last) => Some(*last),
        None => None,
    }
}

fn is_due(state: IntentState) -> bool
    ensures { result ≡ calls.is_due state }
{
    match state {
        IntentState::Fresh | IntentState::Absent => true,
        IntentState::Done | IntentState::Waiting | IntentState::Undecided | IntentState::Unsure =>
            false,
    }
}

fn is_undecided(state: IntentState) -> bool
    ensures { result ≡ calls.is_undecided state }
{
    match state {
        IntentState::Undecided => true,
        IntentState::Fresh
        | IntentState::Done
        | IntentState::Waiting
        | IntentState::Unsure
        | IntentState::Absent => false,
    }
}

// The number of the first intent that is due.
fn first_due(full: &str, sure: u64, client: &Client, intents: &[Intent]) -> Option<u64>
    ensures exact { result ≡ calls.first_due full.now sure client.now.client 1 intents.now }
    ensures within { IfSome result (λ k. (1 ≤ k) × (k ≤ length intents.now)) }
{
    let mut number = 1u64;
    for intent in intents {
        if is_due(intent_state(full, sure, client, intent)) {
            return Some(number);
        }
        number += 1;
    }
    None
}

fn some_undecided(full: &str, sure: u64, client: &Client, intents: &[Intent]) -> bool
    ensures { result ≡ calls.some_undecided full.now sure client.now.client intents.now }
{
    intents.iter().any(|intent| is_undecided(intent_state(full, sure, client, intent)))
}

// The index of the intent of a number.
fn index_under(intent: u64) -> Option<usize>
    ensures { result ≡ calls.index_under intent }
{
    match intent {
        0 => None,
        _ => Some((intent - 1) as usize),
    }
}

// Room for a try of the intent at an index.
fn make_room_at(intents: &mut Vec<Intent>, index: usize) -> Result<(), NoMemory>
    requires { index < length intents.old.items }
    ensures same { map without_room intents.new.items ≡ map without_room intents.old.items }
    ensures room { OnOk result (1 ≤ room_of (slice_get intents.new.items index)) }
{
    intents[index].make_room()
}

// A try more of the intent at an index.
fn push_at(intents: &mut Vec<Intent>, index: usize, one: Try)
    requires { 1 ≤ room_of (slice_get intents.old.items index) }
    ensures { map without_room intents.new.items ≡ map without_room (changed_at index (tried_again one) intents.old.items) }
{
    intents[index].push(one);
}

impl Intents {
    /// No intent of the device with a full address (RFC 7622, section 3.1). It takes no memory.
    pub fn new(alloc: Global, full: Text) -> Intents
        ensures { result ≡ nothing_intended full }
    {
        Intents {
            full,
            intents: Vec::new(alloc),
            seen: 0,
            mark: 0,
            sure: 0,
        }
    }

    /// Adds an intent, and answers its number. It has room for its first try. A refusal leaves all as it was.
    pub fn add(&mut self, alloc: Global, to: Text, text: Text) -> Result<u64, NoMemory>
        ensures number { IfOk result (λ k. k ≡ length self.old.intents + 1) }
        ensures ok { OnOk result (without_rooms self.new ≡ without_rooms (with_intent to text self.old)) }
        ensures room { OnOk result (1 ≤ room_under (length self.old.intents + 1) self.new.intents) }
        ensures err { OnErr result (self.new ≡ self.old) }
    {
        let mut tries = ListOf::new(alloc);
        tries.reserve(1)?;
        self.intents.push(Intent { to, text, tries })?;
        Ok(self.intents.len() as u64)
    }

    // The epoch that is sure, by the pages.
    #[tactic(auto, using(crate::proofs::Rooms::either_way))]
    fn sure_by(&self, tiles: &[Tile]) -> u64
        ensures { result ≡ (if calls.has_complete (drop self.now.mark tiles.now) then self.now.seen else self.now.sure) }
    {
        if self.sure == self.seen {
            return self.sure;
        }
        if has_complete(tiles_from(tiles, self.mark)) {
            self.seen
        } else {
            self.sure
        }
    }

    // How many pages there were when the epoch was seen first.
    fn mark_by(&self, epoch: u64, count: usize) -> u64
        ensures { result ≡ (if epoch == self.now.seen then self.now.mark else count) }
    {
        if epoch == self.seen {
            self.mark
        } else {
            count as u64
        }
    }

    /// Looks at the client: in which epoch it is, and whether a complete page came. It takes no memory.
    pub fn observe(&mut self, client: &Client)
        ensures { self.new ≡ observed client.now.client self.old }
    {
        let tiles = client.log().tiles();
        let epoch = client.epoch();
        let sure = self.sure_by(tiles);
        let mark = self.mark_by(epoch, tiles.len());
        self.seen = epoch;
        self.mark = mark;
        self.sure = sure;
    }

    /// The intent of a number. `None` exactly where there is no such one.
    pub fn get(&self, intent: u64) -> Option<&Intent>
        ensures { option_map (λ i. i.now) result ≡ intent_under intent self.now.intents }
    {
        match index_under(intent) {
            Some(index) => self.intents.as_slice().get(index),
            None => None,
        }
    }

    /// What is known of an intent. `None` exactly where there is no such one. It takes no memory.
    pub fn state(&self, intent: u64, client: &Client) -> Option<IntentState>
        ensures { result ≡ state_under intent client.now.client self.now }
    {
        match self.get(intent) {
            Some(intent) => Some(intent_state(self.full.as_str(), self.sure, client, intent)),
            None => None,
        }
    }

    /// The tries of an intent, in order. `None` exactly where there is no such one.
    pub fn tries(&self, intent: u64) -> Option<&[Try]>
        ensures { option_map (λ tries. tries.now) result ≡ option_map (λ i. i.tries.items) (intent_under intent self.now.intents) }
    {
        match self.get(intent) {
            Some(intent) => Some(intent.tries.as_slice()),
            None => None,
        }
    }

    /// How many intents there are.
    pub fn len(&self) -> u64
        ensures { result ≡ length self.now.intents }
    {
        self.intents.len() as u64
    }

    /// Room for a further try of an intent. Nothing changes but that room.
    pub fn reserve(&mut self, intent: u64) -> Result<(), NoMemory>
        requires { (1 ≤ intent) × (intent ≤ length self.old.intents) }
        ensures same { without_rooms self.new ≡ without_rooms self.old }
        ensures room { OnOk result (1 ≤ room_under intent self.new.intents) }
    {
        match index_under(intent) {
            Some(index) => make_room_at(&mut self.intents, index),
            None => Ok(()),
        }
    }

    /// What is wanted next: to submit the first intent that is fresh or absent; else to catch up where one is undecided;
    /// else nothing. The intent that is to be submitted has room for a try. Nothing changes but that room.
    pub fn next(&mut self, client: &Client) -> Result<Next, NoMemory>
        ensures exact { IfOk result (λ next. next ≡ next_of client.now.client self.old) }
        ensures room { IfOk result (λ next. HasRoom next self.new) }
        ensures same { without_rooms self.new ≡ without_rooms self.old }
    {
        let full = self.full.as_str();
        let intents = self.intents.as_slice();
        let Some(intent) = first_due(full, self.sure, client, intents) else {
            if some_undecided(full, self.sure, client, intents) {
                return Ok(Next::CatchUp);
            }
            return Ok(Next::Rest);
        };
        self.reserve(intent)?;
        Ok(Next::Submit { intent })
    }

    /// An intent was submitted: in which epoch and under which number, and how many entries the log had before. It takes no
    /// memory.
    pub fn tried(&mut self, intent: u64, epoch: u64, n: u64, logged: u64)
        requires { 1 ≤ room_under intent self.old.intents }
        ensures { without_rooms self.new ≡ without_rooms (with_try intent (record { epoch = epoch; n = n; logged = logged }) self.old) }
    {
        match index_under(intent) {
            Some(index) => push_at(&mut self.intents, index, Try { epoch, n, logged }),
            None => {}
        }
    }
}
