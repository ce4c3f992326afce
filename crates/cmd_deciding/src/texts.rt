//! The text of a world with its intents.
ghost use Rattle.std.specs.Prelude.{◌≡◌, ◌≤◌, ◌∷◌, ◌++◌, [], IfOk, OnOk, decimal, length, slice_get};
ghost use Rattle.std.specs.List.{flat_map};
ghost use Rattle.std.specs.Option.{option_map, option_map_or};
ghost use Rattle.cl_intents.specs.Intents.{intent_under};
ghost use Rattle.cmd_report.specs.ReportText.{text_of};
ghost use Rattle.cmd_world.specs.WorldReports.{report_of};
ghost use Rattle.cmd_deciding.specs.Texts.{all_texts, device_texts, intent_text, one_text, state_text, text_of_intents, texts_from, try_text};

use crate::watch::Watch;
use base_io::{Bytes, NoMemory};
use cl_core::Client;
use cl_intents::{Intent, IntentState, Intents, Try};
use cmd_network::Device;
use cmd_report::report_text;
use cmd_world::World;
use itoa::Buffer;
use std::alloc::Global;

fn state_name(state: IntentState) -> &'static str
    ensures { result.now ≡ state_text state }
{
    match state {
        IntentState::Fresh => "fresh",
        IntentState::Done => "done",
        IntentState::Waiting => "waiting",
        IntentState::Undecided => "undecided",
        IntentState::Unsure => "unsure",
        IntentState::Absent => "absent",
    }
}

fn print_field(out: &mut Bytes, field: &str) -> Result<(), NoMemory>
    ensures { OnOk result (out.new.items ≡ out.old.items ++ 32 ∷ field.now) }
{
    out.push(b' ')?;
    out.append(field.as_bytes())
}

fn print_number(out: &mut Bytes, n: u64) -> Result<(), NoMemory>
    ensures { OnOk result (out.new.items ≡ out.old.items ++ 32 ∷ decimal n) }
{
    let mut buffer = Buffer::new();
    print_field(out, buffer.format(n))
}

fn print_try(out: &mut Bytes, name: &str, k: u64, one: Try) -> Result<(), NoMemory>
    ensures { OnOk result (out.new.items ≡ out.old.items ++ try_text name.now k one) }
{
    out.append(b"try ")?;
    out.append(name.as_bytes())?;
    print_number(out, k)?;
    print_number(out, one.epoch)?;
    print_number(out, one.n)?;
    out.push(b'\n')
}

fn print_tries(out: &mut Bytes, name: &str, k: u64, tries: &[Try]) -> Result<(), NoMemory>
    ensures { OnOk result (out.new.items ≡ out.old.items ++ flat_map (try_text name.now k) tries.now) }
{
    for one in tries {
        print_try(out, name, k, *one)?;
    }
    Ok(())
}

fn print_intent(
    out: &mut Bytes,
    name: &str,
    k: u64,
    state: IntentState,
    intent: &Intent,
) -> Result<(), NoMemory>
    ensures { OnOk result (out.new.items ≡ out.old.items ++ intent_text name.now k state intent.now) }
{
    out.append(b"intent ")?;
    out.append(name.as_bytes())?;
    print_number(out, k)?;
    print_field(out, state_name(state))?;
    print_field(out, intent.to.as_str())?;
    print_field(out, intent.text.as_str())?;
    out.push(b'\n')
}

// The intent of a number, where there is one, and its tries.
fn print_one(
    out: &mut Bytes,
    name: &str,
    client: &Client,
    intents: &Intents,
    k: u64,
) -> Result<(), NoMemory>
    ensures { OnOk result (out.new.items ≡ out.old.items ++ option_map_or (one_text name.now intents.now.full intents.now.sure client.now.client k) (intent_under k intents.now.intents) []) }
{
    let Some(intent) = intents.get(k) else {
        return Ok(());
    };
    let Some(state) = intents.state(k, client) else {
        return Ok(());
    };
    print_intent(out, name, k, state, intent)?;
    print_tries(out, name, k, intent.tries.as_slice())
}

// The intents of a device.
#[tactic(auto, using(crate::proofs::Printed::next_text, crate::proofs::Printed::no_text_left))]
fn print_intents(
    out: &mut Bytes,
    name: &str,
    client: &Client,
    intents: &Intents,
) -> Result<(), NoMemory>
    ensures { OnOk result (out.new.items ≡ out.old.items ++ texts_from name.now intents.now.full intents.now.sure client.now.client 1 intents.now.intents) }
{
    for index in 0..intents.len() {
        print_one(out, name, client, intents, index + 1)?;
    }
    Ok(())
}

// Those of a device, where it has them.
fn print_device(out: &mut Bytes, device: &Device, intents: Option<&Intents>) -> Result<(), NoMemory>
    ensures { OnOk result (out.new.items ≡ out.old.items ++ option_map_or (device_texts device.now) (option_map (λ i. i.now) intents.entry) []) }
{
    match intents {
        Some(intents) => print_intents(out, device.name().as_str(), device.client(), intents),
        None => Ok(()),
    }
}

// The intents of the device at an index.
fn intents_at(intents: &[Intents], index: usize) -> Option<&Intents>
    ensures { option_map (λ i. i.now) result ≡ slice_get intents.now index }
{
    match intents.get(index) {
        Some(intents) => Some(intents),
        None => None,
    }
}

// Those of all devices.
fn print_all(out: &mut Bytes, devices: &[Device], intents: &[Intents]) -> Result<(), NoMemory>
    ensures { OnOk result (out.new.items ≡ out.old.items ++ all_texts devices.now intents.now) }
{
    let mut index = 0usize;
    for device in devices {
        print_device(out, device, intents_at(intents, index))?;
        index += 1;
    }
    Ok(())
}

// The text of a world's report.
fn world_text(alloc: Global, world: &World) -> Result<Bytes, NoMemory>
    requires { length world.now.accounts ≤ 100 }
    ensures { IfOk result (λ text. text.items ≡ text_of (report_of world.now)) }
{
    let report = world.report()?;
    report_text(alloc, &report)
}

/// The text of a world with its intents: the report's, with its own last line; then per device and intent, in declared
/// order, a line with what is known of it, followed by a line for each of its tries. A file has at most 100 accounts.
pub fn intents_text(alloc: Global, watch: &Watch) -> Result<Bytes, NoMemory>
    requires { length watch.now.world.accounts ≤ 100 }
    ensures { IfOk result (λ text. text.items ≡ text_of_intents watch.now) }
{
    let mut out = world_text(alloc, &watch.world)?;
    out.append(b"intents 1\n")?;
    print_all(&mut out, watch.world.devices(), watch.intents.as_slice())?;
    out.append(b"end\n")?;
    Ok(out)
}
