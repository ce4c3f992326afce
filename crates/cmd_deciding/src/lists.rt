//! The intents of devices, each told by its index. Where there is no such device nothing happens.
ghost use Rattle.std.specs.Prelude.{◌≡◌, IfOk, IfSome, IsTrue, OnOk, map, slice_get};
ghost use Rattle.std.specs.Option.{option_map};
ghost use Rattle.cl_intents.specs.Intents.{observed, with_intent, with_try, without_room, without_rooms};
ghost use Rattle.cmd_network.specs.Positions.{changed_at};
ghost use Rattle.cmd_schedule.specs.Grammar.{is_name};
ghost use Rattle.cmd_resolving.specs.Expansion;
ghost use Rattle.cmd_resolving.specs.Expansion.{intent_in};
ghost use Rattle.cmd_deciding.specs.Looks.{EachNamed};
ghost use Rattle.cmd_deciding.specs.Turns.{next_in};

use base_io::{Copied, NoMemory, Text};
use cl_core::Client;
use cl_intents::{Intent, Intents, Next, Try};
use std::alloc::Global;

/// The intents look at a client. It takes no memory.
#[tactic(auto, using(crate::proofs::Rooms::observed_nowhere))]
pub(crate) fn observe_at(intents: &mut Vec<Intents>, index: usize, client: &Client)
    ensures { map without_rooms intents.new.items ≡ changed_at index (observed client.now.client) (map without_rooms intents.old.items) }
{
    if index < intents.len() {
        intents[index].observe(client);
    }
}

// A try more of the intent of a number, where there is one.
#[tactic(auto, using(crate::proofs::Rooms::noted_rooms, crate::proofs::Rooms::not_noted, crate::proofs::Rooms::nothing_noted))]
fn note_in(intents: &mut Intents, intent: u64, one: Try) -> Result<(), NoMemory>
    ensures { OnOk result (without_rooms intents.new ≡ without_rooms (with_try intent one intents.old)) }
{
    if intent == 0 {
        return Ok(());
    }
    if intent > intents.len() {
        return Ok(());
    }
    intents.reserve(intent)?;
    intents.tried(intent, one.epoch, one.n, one.logged);
    Ok(())
}

/// A try more of the intent of a number.
#[tactic(auto, using(crate::proofs::Rooms::tried_nowhere))]
pub(crate) fn note_at(
    intents: &mut Vec<Intents>,
    index: usize,
    intent: u64,
    one: Try,
) -> Result<(), NoMemory>
    ensures { OnOk result (map without_rooms intents.new.items ≡ changed_at index (with_try intent one) (map without_rooms intents.old.items)) }
{
    if index < intents.len() {
        note_in(&mut intents[index], intent, one)
    } else {
        Ok(())
    }
}

// A new intent.
fn add_in(alloc: Global, intents: &mut Intents, to: &Text, text: &Text) -> Result<(), NoMemory>
    ensures { OnOk result (without_rooms intents.new ≡ without_rooms (with_intent to.now text.now intents.old)) }
{
    let to = to.copied(alloc)?;
    let text = text.copied(alloc)?;
    intents.add(alloc, to, text)?;
    Ok(())
}

/// A new intent of a device.
#[tactic(auto, using(crate::proofs::Rooms::added_nowhere))]
pub(crate) fn add_at(
    alloc: Global,
    intents: &mut Vec<Intents>,
    index: usize,
    to: &Text,
    text: &Text,
) -> Result<(), NoMemory>
    ensures { OnOk result (map without_rooms intents.new.items ≡ changed_at index (with_intent to.now text.now) (map without_rooms intents.old.items)) }
{
    if index < intents.len() {
        add_in(alloc, &mut intents[index], to, text)
    } else {
        Ok(())
    }
}

/// What is wanted next of the intents of a device, by its client. Nothing changes but room for tries.
#[tactic(auto, using(crate::proofs::Rooms::nothing_next))]
pub(crate) fn next_at(
    intents: &mut Vec<Intents>,
    index: usize,
    client: &Client,
) -> Result<Next, NoMemory>
    ensures exact { IfOk result (λ next. next ≡ next_in client.now.client (slice_get (map without_rooms intents.old.items) index)) }
    ensures same { map without_rooms intents.new.items ≡ map without_rooms intents.old.items }
{
    if index < intents.len() {
        intents[index].next(client)
    } else {
        Ok(Next::Rest)
    }
}

/// The intent of a number of a device. `None` exactly where there is none.
#[tactic(auto, using(crate::proofs::Rooms::intent_there, crate::proofs::Rooms::no_intent_there, crate::proofs::Named::named_there))]
pub(crate) fn intent_at(intents: &[Intents], index: usize, intent: u64) -> Option<&Intent>
    requires { EachNamed (map without_rooms intents.now) }
    ensures exact { option_map (λ i. without_room i.now) result ≡ intent_in index intent (map without_rooms intents.now) }
    ensures named { IfSome result (λ i. IsTrue (is_name i.now.to)) }
{
    match intents.get(index) {
        Some(intents) => intents.get(intent),
        None => None,
    }
}

/// How many intents a device has.
#[tactic(auto, using(crate::proofs::Rooms::count_rooms))]
pub(crate) fn count_at(intents: &[Intents], index: usize) -> u64
    ensures { result ≡ Expansion.count_at index (map without_rooms intents.now) }
{
    match intents.get(index) {
        Some(intents) => intents.len(),
        None => 0,
    }
}
