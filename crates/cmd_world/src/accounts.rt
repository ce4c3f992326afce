//! What a world begins with.
ghost use Rattle.std.specs.Prelude.{◌≡◌, ◌≤◌, ◌<◌, ◌^◌, ◌∷◌, ◌++◌, [], false, None, length, IfOk, IsTrue, OnOk};
ghost use Rattle.cmd_network.specs.Starting;
ghost use Rattle.base_io.specs.Names.{is_among};
ghost use Rattle.cmd_report.specs.Addresses.{domain};
ghost use Rattle.cmd_schedule.specs.Grammar.{is_name, may_keep};
ghost use Rattle.cmd_schedule.specs.Schedules.{keep_of, wire_steps_of};
ghost use Rattle.cmd_schedule.specs.WireGrammar.{AreRunnable, nothing_above};
ghost use Rattle.srv_core.specs.Configs.{at_start, config_fault};
ghost use Rattle.cmd_world.specs.Declaring.{AreAccounts, AreNames, MayAllDeclare, MayAdd, MayDeclare, all_declared, declares, declares_common, nothing_begun};
ghost use Rattle.cmd_world.specs.Histories.{world_at_start};

use crate::world::World;
use base_io::{Copied, NameIndex, Names, NoMemory, Text};
use cmd_network::{Device, account_at_start, device_at_start};
use cmd_report::{DOMAIN, TakeLines};
use cmd_schedule::{Step, Version, WireLine, WireSchedule, WireStep};
use srv_core::{Config, ConfigFault, Server};
use srv_login::AccountList;
use std::alloc::Global;
use std::marker::Model;

// The accounts and the devices of lines.
#[derive(Drop)]
struct Declared {
    accounts: Names,
    index: NameIndex,
    devices: Vec<Device>,
}

impl Model for Declared {
    ghost use Rattle.std.specs.Coded.{codes};
    ghost use Rattle.xml_framer.specs.StateCodes.{state_coded};
    ghost use Rattle.cmd_world.specs.Declaring.{Begun};

    ghost Value = { Begun };

    ghost coded = { Prim.hlevel (codes, state_coded) };

    ghost view = { λ d. record { accounts = d.accounts.items; names = d.index; devices = d.devices.items } };
}

// Adds an account.
fn add_account(alloc: Global, accounts: &mut Names, name: &Text) -> Result<(), NoMemory>
    ensures { OnOk result (accounts.new.items ≡ accounts.old.items ++ name.now ∷ []) }
{
    accounts.push(name.copied(alloc)?)
}

// Adds a device.
fn add_device(
    alloc: Global,
    index: &mut NameIndex,
    devices: &mut Vec<Device>,
    name: &str,
    account: &str,
) -> Result<(), NoMemory>
    requires name { IsTrue (is_name name.now) }
    requires account { IsTrue (is_name account.now) }
    requires new { is_among name.now index.old ≡ false }
    ensures index { OnOk result (index.new ≡ index.old ++ name.now ∷ []) }
    ensures devices { OnOk result (devices.new.items ≡ devices.old.items ++ Starting.device_at_start name.now account.now ∷ []) }
{
    let device = device_at_start(alloc, name, account)?;
    index.add(alloc, name)?;
    devices.push(device)?;
    Ok(())
}

// Adds what a line declares that direct schedules have too.
fn declare_common(alloc: Global, declared: &mut Declared, step: &Step) -> Result<(), NoMemory>
    requires { MayAdd step.now declared.old }
    ensures { OnOk result (declared.new ≡ declares_common step.now declared.old) }
{
    match step {
        Step::Account(name) => add_account(alloc, &mut declared.accounts, name),
        Step::Device(name, account) => add_device(
            alloc,
            &mut declared.index,
            &mut declared.devices,
            name.as_str(),
            account.as_str(),
        ),
        _ => Ok(()),
    }
}

// Adds what a line declares.
fn declare(alloc: Global, declared: &mut Declared, step: &WireStep) -> Result<(), NoMemory>
    requires { MayDeclare step.now declared.old }
    ensures { OnOk result (declared.new ≡ declares step.now declared.old) }
{
    match step {
        WireStep::Common(step) => declare_common(alloc, declared, step),
        _ => Ok(()),
    }
}

// What lines declare.
fn declared_by(alloc: Global, lines: &[WireLine]) -> Result<Declared, NoMemory>
    requires { MayAllDeclare lines.now nothing_begun }
    ensures { IfOk result (λ declared. declared ≡ all_declared lines.now nothing_begun) }
{
    let mut declared = Declared {
        accounts: Names::new(alloc),
        index: NameIndex::new(alloc),
        devices: Vec::new(alloc),
    };
    for line in lines {
        declare(alloc, &mut declared, &line.step)?;
    }
    Ok(declared)
}

// The accounts as the server has them.
fn accounts_at_start(alloc: Global, names: &[Text]) -> Result<AccountList, NoMemory>
    requires { AreNames names.now }
    ensures { IfOk result (λ accounts. accounts.items ≡ Starting.accounts_at_start names.now) }
{
    let mut accounts = AccountList::new(alloc);
    for name in names {
        accounts.push(account_at_start(alloc, name.as_str())?)?;
    }
    Ok(accounts)
}

// A server with which nothing is wrong.
fn begun(alloc: Global, config: Config) -> Result<Server, NoMemory>
    requires right { config_fault config.domain config.accounts.items ≡ None }
    requires few { length config.accounts.items < 2 ^ 32 }
    requires keep { 1 ≤ config.keep }
    ensures { IfOk result (λ server. server ≡ at_start config.domain config.accounts.items config.keep) }
{
    match Server::new(alloc, config) {
        Ok(server) => Ok(server),
        Err(ConfigFault::NoMemory) => Err(NoMemory),
        Err(_) => unreachable!(),
    }
}

// The server of these accounts.
#[tactic(auto, using(crate::proofs::Declares::are_names, crate::proofs::Declares::are_few, crate::proofs::Declares::as_many))]
fn server_of(alloc: Global, names: &[Text], version: Version) -> Result<Server, NoMemory>
    requires names { AreAccounts [] names.now }
    requires keep { 1 ≤ keep_of version }
    ensures { IfOk result (λ server. server ≡ at_start domain (Starting.accounts_at_start names.now) (keep_of version)) }
{
    let accounts = accounts_at_start(alloc, names)?;
    let domain = Text::from_str(alloc, DOMAIN)?;
    begun(
        alloc,
        Config {
            domain,
            accounts,
            keep: version.keep(),
        },
    )
}

impl World {
    /// The world of a schedule before its first line: the accounts and devices that any of its lines declares are there, and no
    /// connection is.
    #[tactic(auto, using(crate::proofs::Declares::may_all, crate::proofs::Declares::are_accounts, crate::proofs::Declares::begun_is, crate::proofs::Declares::some_kept))]
    pub fn new(alloc: Global, schedule: &WireSchedule) -> Result<World, NoMemory>
        requires keeps { IsTrue (may_keep schedule.now.version) }
        requires lines { AreRunnable nothing_above (wire_steps_of schedule.now.lines) }
        ensures { IfOk result (λ world. world ≡ world_at_start schedule.now) }
    {
        let Declared {
            accounts,
            index,
            devices,
        } = declared_by(alloc, schedule.lines.as_slice())?;
        let server = server_of(alloc, accounts.as_slice(), schedule.version)?;
        Ok(World {
            alloc,
            version: schedule.version,
            moment: 0,
            server,
            accounts,
            index,
            devices,
            wires: Vec::new(alloc),
            takes: TakeLines::new(alloc),
        })
    }
}
