//! What a line says, by its first word, below what the lines above it declare.
ghost use Rattle.std.specs.Prelude.{◌≡◌, ◌≤◌, ◌&&◌, true, IfOk, OnOk, OnErr};
ghost use Rattle.std.specs.Str.{is_utf8};
ghost use Rattle.cmd_schedule.specs.Gives.{Gives, left};
ghost use Rattle.cmd_schedule.specs.Grammar.{Declared, declared_by, nothing_declared};
ghost use Rattle.cmd_schedule.specs.Reading.{wants, cut_of, read_account, read_device, read_message, read_say, read_private, read_catchup, read_tick, read_words, read_line};
ghost use Rattle.cmd_schedule.specs.declared.fault.LineWhy.TheVariants.{Ending};

use crate::decimals::number_within;
use crate::fault::{LineFault, LineWhy, wants};
use crate::fields::{cut_word, is_name, is_text, last_field, next_field, rest_field};
use crate::lines::spelled;
use crate::names::DeclaredNames;
use crate::schedule::{MOST_TICK, Step};
use base_io::{Copied, Text};
use std::alloc::Global;
use std::marker::Model;

/// The names that are declared above a line.
#[derive(Drop)]
pub struct NamesAbove {
    pub accounts: DeclaredNames,
    pub devices: DeclaredNames,
}

impl Model for NamesAbove {
    ghost use Rattle.cmd_schedule.specs.Grammar.{Declared};

    ghost Value = { Declared };

    ghost view = { λ a. record { accounts = a.accounts; devices = a.devices } };
}

impl NamesAbove {
    /// No names. It takes no memory.
    pub fn new(alloc: Global) -> NamesAbove
        ensures { result ≡ nothing_declared }
    {
        NamesAbove {
            accounts: DeclaredNames::new(alloc),
            devices: DeclaredNames::new(alloc),
        }
    }
}

#[tactic(auto, unfolding(crate::specs::Reading::read_account))]
fn read_account(
    alloc: Global,
    above: &mut NamesAbove,
    fields: Option<&str>,
) -> Result<Step, LineFault>
    ensures exact { Gives (λ step. step) result (read_account above.old (left fields.entry)) }
    ensures declared { IfOk result (λ step. above.new ≡ declared_by step above.old) }
    ensures err { OnErr result (above.new ≡ above.old) }
{
    wants(above.accounts.len() < 100, LineWhy::Many)?;
    let name = last_field(fields)?;
    wants(is_name(name), LineWhy::Name)?;
    wants(!above.accounts.contains(name), LineWhy::Twice)?;
    Ok(Step::Account(above.accounts.add(alloc, name)?))
}

#[tactic(auto, unfolding(crate::specs::Reading::read_device))]
fn read_device(
    alloc: Global,
    above: &mut NamesAbove,
    fields: Option<&str>,
) -> Result<Step, LineFault>
    ensures exact { Gives (λ step. step) result (read_device above.old (left fields.entry)) }
    ensures declared { IfOk result (λ step. above.new ≡ declared_by step above.old) }
    ensures err { OnErr result (above.new ≡ above.old) }
{
    wants(above.devices.len() < 100, LineWhy::Many)?;
    let (name, rest) = next_field(fields)?;
    let account = last_field(rest)?;
    wants(is_name(name), LineWhy::Name)?;
    wants(!above.devices.contains(name), LineWhy::Twice)?;
    let account = above.accounts.known(account)?.copied(alloc)?;
    Ok(Step::Device(above.devices.add(alloc, name)?, account))
}

/// The device, the account and the text of a message.
#[tactic(auto, unfolding(crate::specs::Reading::read_message))]
fn read_message(
    alloc: Global,
    above: &NamesAbove,
    fields: Option<&str>,
) -> Result<(Text, Text, Text), LineFault>
    ensures { Gives (λ message. message) result (read_message above.now (left fields.entry)) }
{
    let (device, rest) = next_field(fields)?;
    let (to, rest) = next_field(rest)?;
    let text = rest_field(rest)?;
    let device = above.devices.known(device)?;
    wants(is_name(to), LineWhy::Name)?;
    wants(is_text(text), LineWhy::Text)?;
    let device = device.copied(alloc)?;
    let to = above.accounts.text_of(alloc, to)?;
    let text = Text::from_str(alloc, text)?.shared()?;
    Ok((device, to, text))
}

#[tactic(auto, unfolding(crate::specs::Reading::read_say))]
fn read_say(alloc: Global, above: &NamesAbove, fields: Option<&str>) -> Result<Step, LineFault>
    ensures exact { Gives (λ step. step) result (read_say above.now (left fields.entry)) }
    ensures declared { IfOk result (λ step. declared_by step above.now ≡ above.now) }
{
    let (device, to, text) = read_message(alloc, above, fields)?;
    Ok(Step::Say(device, to, text))
}

#[tactic(auto, unfolding(crate::specs::Reading::read_private))]
fn read_private(alloc: Global, above: &NamesAbove, fields: Option<&str>) -> Result<Step, LineFault>
    ensures exact { Gives (λ step. step) result (read_private above.now (left fields.entry)) }
    ensures declared { IfOk result (λ step. declared_by step above.now ≡ above.now) }
{
    let (device, to, text) = read_message(alloc, above, fields)?;
    Ok(Step::Private(device, to, text))
}

#[tactic(auto, unfolding(crate::specs::Reading::read_catchup))]
fn read_catchup(alloc: Global, above: &NamesAbove, fields: Option<&str>) -> Result<Step, LineFault>
    ensures exact { Gives (λ step. step) result (read_catchup above.now (left fields.entry)) }
    ensures declared { IfOk result (λ step. declared_by step above.now ≡ above.now) }
{
    let (device, rest) = next_field(fields)?;
    let field = last_field(rest)?;
    let device = above.devices.known(device)?;
    let most = number_within(1, 100, field)?;
    Ok(Step::Catchup(device.copied(alloc)?, most))
}

#[tactic(auto, unfolding(crate::specs::Reading::read_tick))]
fn read_tick(fields: Option<&str>) -> Result<Step, LineFault>
    ensures exact { Gives (λ step. step) result (read_tick (left fields.entry)) }
    ensures declared { IfOk result (λ step. (above : Declared) → declared_by step above ≡ above) }
{
    let field = last_field(fields)?;
    Ok(Step::Tick(number_within(0, MOST_TICK, field)?))
}

/// What a line says, by its first word. It adds to the names above what the line declares.
#[tactic(auto, unfolding(crate::specs::Reading::read_words))]
pub fn read_words(alloc: Global, above: &mut NamesAbove, line: &str) -> Result<Step, LineFault>
    ensures exact { Gives (λ step. step) result (read_words above.old (cut_of line.now)) }
    ensures declared { IfOk result (λ step. above.new ≡ declared_by step above.old) }
    ensures err { OnErr result (above.new ≡ above.old) }
{
    let (word, fields) = cut_word(line);
    match word {
        "account" => read_account(alloc, above, fields),
        "device" => read_device(alloc, above, fields),
        "say" => read_say(alloc, above, fields),
        "private" => read_private(alloc, above, fields),
        "catchup" => read_catchup(alloc, above, fields),
        "tick" => read_tick(fields),
        _ => Err(LineFault::Reason(LineWhy::Word)),
    }
}

/// What line `number` says. It adds to the names above what the line declares, and a line that is not read leaves
/// them as they were.
#[tactic(auto, unfolding(crate::specs::Reading::read_line))]
pub fn read_line(
    alloc: Global,
    above: &mut NamesAbove,
    number: u64,
    line: &[u8],
    ended: bool,
) -> Result<Step, LineFault>
    ensures exact { Gives (λ step. step) result (read_line above.old number (record { bytes = line.now; ended = ended })) }
    ensures declared { IfOk result (λ step. above.new ≡ declared_by step above.old) }
    ensures err { OnErr result (above.new ≡ above.old) }
    ensures few { OnOk result (number ≤ 100000) }
{
    let line = spelled(line, ended)?;
    wants(number <= 100_000, LineWhy::Many)?;
    read_words(alloc, above, line)
}
