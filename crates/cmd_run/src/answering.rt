//! What is answered to the words and the input of a call.
//!
//! All text is made before a byte of it is written; want of memory is an answer of its own.
ghost use Rattle.std.specs.Prelude.{◌≡◌, ◌⊎◌, false, true, ◌<◌, ◌≤◌, Some, IfOk, IsSome, OnOk};
ghost use Rattle.base_io.specs.Counts.{Rose};
ghost use Rattle.base_io.specs.Given.{Gave};
ghost use Rattle.cmd_run.specs.Dealings.{AreJoined, AreKept, Dealings, IsBack, dealings_of};
ghost use Rattle.cmd_run.specs.Words;
ghost use Rattle.cmd_run.specs.Table;
ghost use Rattle.cmd_generate.specs.Summary.{summary_of};
ghost use Rattle.cmd_generate.specs.declared.generated.TheConstants.{MOST_SIZE};
ghost use Rattle.cmd_schedule.specs.Kinds.{IsSchedule};
ghost use Rattle.cmd_schedule.specs.WireGrammar.{IsWireSchedule};
ghost use Rattle.cmd_world.specs.Histories.{world_of};
ghost use Rattle.cmd_world.specs.WorldReports.{report_of};

use crate::answer::{Answer, said};
use crate::command::Command;
use crate::laws::{files_are_decided, wire_reports_are_of_their_worlds};
use crate::outcome::Outcome;
use crate::outside::Outside;
use crate::surroundings::{Surroundings, serve, synchronise};
use crate::texts::{HELP, READ_FAULT_LINE, TOO_LONG_LINE, VERSION, WORDS_LINE, refusal};
use base_io::{Bytes, NoMemory, ReadAllFault, Source, read_all};
use cmd_deciding::resolved_bytes;
use cmd_direct::direct_is_lawful;
use cmd_generate::{generate, summary_text};
use cmd_journal::InputFault;
use cmd_replay::direct;
use cmd_report::{Report, report_text};
use cmd_rerun::rerun_bytes;
use cmd_schedule::{Schedule, ScheduleFault, WireSchedule, read_schedule};
use cmd_world::wire_report;
use law_commands::{direct_reports_are_of_their_worlds, told_is_the_grammars};
use net_owner::Spawner;
use net_traits::{Clock, Dialer, Entropy, Halves, Incoming, Outgoing};
use sim_7_schedules::wire_schedules_are_lawful;
use std::alloc::Global;
use std::sync::Wait;
use std::thread::Threads;
use xml_check::check;

/// The report of a schedule. The laws are called for their facts, that it keeps the five laws of the schedule's version and is
/// of the last of its worlds.
fn reported(alloc: Global, schedule: Schedule) -> Result<Report, NoMemory>
    requires { IsSchedule schedule }
    ensures { IfOk result (λ report. Table.IsReportOf schedule report) }
{
    match schedule {
        Schedule::Direct(schedule) => {
            direct_is_lawful();
            direct_reports_are_of_their_worlds();
            direct(alloc, schedule)
        }
        Schedule::Wire(schedule) => {
            wire_schedules_are_lawful();
            wire_reports_are_of_their_worlds();
            wire_report(alloc, &schedule)
        }
    }
}

/// The report of the schedule whose text this is, or the refusal of the text. The input is dropped once it is read.
fn replayed(alloc: Global, input: Bytes) -> Result<Answer, NoMemory>
    ensures { IfOk result (λ answer. (dealt : Dealings) → Table.IsAnswer Command.Replay input.items dealt answer.outcome answer.text.items) }
{
    let read = read_schedule(alloc, input.as_slice());
    drop(input);
    match read {
        Ok(schedule) => {
            let report = reported(alloc, schedule)?;
            Ok(Answer {
                outcome: Outcome::Done,
                text: report_text(alloc, &report)?,
            })
        }
        Err(ScheduleFault::BadLine { line, why }) => Ok(Answer {
            outcome: Outcome::Refused,
            text: refusal(alloc, line, why)?,
        }),
        Err(ScheduleFault::NoMemory) => Err(NoMemory),
    }
}

/// What is told of the stream with these bytes. The law is called for its fact, that this is the grammar's.
#[tactic(auto, using(crate::proofs::Inputs::told_so))]
fn checked(alloc: Global, input: &[u8]) -> Result<Answer, NoMemory>
    ensures { IfOk result (λ answer. (dealt : Dealings) → Table.IsAnswer Command.Check input.now dealt answer.outcome answer.text.items) }
{
    told_is_the_grammars();
    let checked = check(alloc, input)?;
    let outcome = if checked.sound {
        Outcome::Done
    } else {
        Outcome::Refused
    };
    Ok(Answer {
        outcome,
        text: checked.text,
    })
}

/// What comes of the run whose text this is, done again, or the refusal of the text.
fn reran(alloc: Global, input: Bytes) -> Result<Answer, NoMemory>
    ensures { IfOk result (λ answer. (dealt : Dealings) → Table.IsAnswer Command.Rerun input.items dealt answer.outcome answer.text.items) }
{
    match rerun_bytes(alloc, input) {
        Ok(text) => Ok(Answer {
            outcome: Outcome::Done,
            text,
        }),
        Err(InputFault::BadLine { line, why }) => Ok(Answer {
            outcome: Outcome::Refused,
            text: refusal(alloc, line, why)?,
        }),
        Err(InputFault::NoMemory) => Err(NoMemory),
    }
}

/// What comes of the file of intents whose text this is, or the refusal of the text. The law is called for its fact, that the
/// report keeps the laws of a schedule's, and that its intents are tried right.
#[tactic(auto, using(crate::proofs::Decided::resolved_so, crate::proofs::Decided::refused_so))]
fn resolved(alloc: Global, input: Bytes) -> Result<Answer, NoMemory>
    ensures { IfOk result (λ answer. (dealt : Dealings) → Table.IsAnswer Command.Intents input.items dealt answer.outcome answer.text.items) }
{
    files_are_decided();
    match resolved_bytes(alloc, input) {
        Ok(text) => Ok(Answer {
            outcome: Outcome::Done,
            text,
        }),
        Err(ScheduleFault::BadLine { line, why }) => Ok(Answer {
            outcome: Outcome::Refused,
            text: refusal(alloc, line, why)?,
        }),
        Err(ScheduleFault::NoMemory) => Err(NoMemory),
    }
}

/// The summary of the report of a schedule. The laws are called for their facts about that report.
fn summary(alloc: Global, schedule: &WireSchedule) -> Result<Bytes, NoMemory>
    requires { IsWireSchedule schedule.now }
    ensures text { IfOk result (λ text. text.items ≡ summary_of schedule.now (report_of (world_of schedule.now))) }
    ensures lawful { OnOk result (Table.IsWireReport schedule.now (report_of (world_of schedule.now))) }
{
    wire_schedules_are_lawful();
    wire_reports_are_of_their_worlds();
    let report = wire_report(alloc, schedule)?;
    summary_text(alloc, schedule, &report)
}

/// The summary of the report of the schedule that a number makes, with so many drawn lines.
fn summed_up(alloc: Global, number: u64, size: u32) -> Result<Answer, NoMemory>
    requires { size ≤ MOST_SIZE }
    ensures outcome { IfOk result (λ answer. answer.outcome ≡ Outcome.Done) }
    ensures text { IfOk result (λ answer. answer.text.items ≡ Table.generated_summary number size) }
    ensures lawful { IfOk result (λ answer. Table.IsSummedUp number size answer.text.items) }
{
    let schedule = generate(alloc, number, size)?;
    Ok(Answer {
        outcome: Outcome::Done,
        text: summary(alloc, &schedule)?,
    })
}

/// The answer of a command to an input, which it looks at only if it is one that reads. The outside is as it was where the
/// command doesn't go out.
#[tactic(auto, using(crate::proofs::Doors::still_joined))]
fn answer_to<
    R: Threads + Wait + Copy + Send + 'static,
    I: Incoming + Drop + Send + 'static,
    O: Outgoing + Drop + Send + 'static,
    D: Halves<Incoming = I, Outgoing = O> + Send + Drop + 'static,
    L: Dialer,
    C: Clock,
    E: Entropy,
    P: Spawner,
>(
    rt: &R,
    alloc: Global,
    command: Command,
    input: Bytes,
    outside: &mut Outside<D, L, C, E, P>,
) -> Result<Answer, NoMemory>
where
    D::Link: Send + 'static,
    requires there { IsSome outside.old.door }
    requires askable { Words.IsAskable command }
    ensures answer { IfOk result (λ answer. Table.IsAnswer command input.items
        (dealings_of ⟦<Outside<D, L, C, E, P> as Surroundings>⟧.view outside.old outside.new) answer.outcome answer.text.items) }
    ensures door { IsSome outside.new.door ⊎ Rose (P.faults outside.old.spawner) (P.faults outside.new.spawner) }
    ensures kept { AreKept (dealings_of ⟦<Outside<D, L, C, E, P> as Surroundings>⟧.view outside.old outside.new) }
    ensures joined { AreJoined (dealings_of ⟦<Outside<D, L, C, E, P> as Surroundings>⟧.view outside.old outside.new) }
    ensures returned { IsBack (dealings_of ⟦<Outside<D, L, C, E, P> as Surroundings>⟧.view outside.old outside.new) }
    ensures stays { Words.serves (Some command) ≡ false → (outside.new.door ≡ outside.old.door) × (outside.new.spawner ≡ outside.old.spawner) }
    ensures apart { Words.goes_out (Some command) ≡ false → outside.new ≡ outside.old }
{
    match command {
        Command::Help => said(alloc, Outcome::Done, HELP),
        Command::Version => said(alloc, Outcome::Done, VERSION),
        Command::Replay => replayed(alloc, input),
        Command::Check => checked(alloc, input.as_slice()),
        Command::Rerun => reran(alloc, input),
        Command::Intents => resolved(alloc, input),
        Command::Generate { number, size } => summed_up(alloc, number, size),
        Command::Serve { port, connections } => {
            serve(rt, alloc, port, connections, input.as_slice(), outside)
        }
        Command::Sync { port } => synchronise(alloc, port, input.as_slice(), outside),
    }
}

/// The answer of a command that reads, whose input is all that the source gives.
#[tactic(auto, using(crate::proofs::Doors::still_joined))]
fn answer_read<
    R: Threads + Wait + Copy + Send + 'static,
    S: Source,
    I: Incoming + Drop + Send + 'static,
    O: Outgoing + Drop + Send + 'static,
    D: Halves<Incoming = I, Outgoing = O> + Send + Drop + 'static,
    L: Dialer,
    C: Clock,
    E: Entropy,
    P: Spawner,
>(
    rt: &R,
    alloc: Global,
    command: Command,
    source: &mut S,
    outside: &mut Outside<D, L, C, E, P>,
) -> Result<Answer, NoMemory>
where
    D::Link: Send + 'static,
    requires there { IsSome outside.old.door }
    requires askable { Words.IsAskable command }
    requires reading { Words.reads (Some command) ≡ true }
    ensures due { IfOk result (λ answer. Gave (S.given source.old) (S.given source.new) (λ input.
        Table.Due (Some command) input (S.left source.old) (S.left source.new) (Rose (S.faults source.old) (S.faults source.new))
        (dealings_of ⟦<Outside<D, L, C, E, P> as Surroundings>⟧.view outside.old outside.new) answer.outcome answer.text.items)) }
    ensures read_fault { S.faults source.old < S.faults source.new → IfOk result (λ answer. answer.outcome ≡ Outcome.ReadFault) }
    ensures later { S.faults source.old ≤ S.faults source.new }
    ensures door { IsSome outside.new.door ⊎ Rose (P.faults outside.old.spawner) (P.faults outside.new.spawner) }
    ensures kept { AreKept (dealings_of ⟦<Outside<D, L, C, E, P> as Surroundings>⟧.view outside.old outside.new) }
    ensures joined { AreJoined (dealings_of ⟦<Outside<D, L, C, E, P> as Surroundings>⟧.view outside.old outside.new) }
    ensures returned { IsBack (dealings_of ⟦<Outside<D, L, C, E, P> as Surroundings>⟧.view outside.old outside.new) }
    ensures stays { Words.serves (Some command) ≡ false → (outside.new.door ≡ outside.old.door) × (outside.new.spawner ≡ outside.old.spawner) }
    ensures apart { Words.goes_out (Some command) ≡ false → outside.new ≡ outside.old }
{
    match read_all(alloc, source) {
        Ok(input) => answer_to(rt, alloc, command, input, outside),
        Err(ReadAllFault::ReadFault) => said(alloc, Outcome::ReadFault, READ_FAULT_LINE),
        Err(ReadAllFault::TooLong) => said(alloc, Outcome::TooLong, TOO_LONG_LINE),
        Err(ReadAllFault::NoMemory) => Err(NoMemory),
    }
}

/// The answer to these words. The source is read where they ask for a command that reads, and otherwise left as it is.
#[tactic(auto, using(crate::proofs::Doors::still_joined))]
pub fn due<
    R: Threads + Wait + Copy + Send + 'static,
    S: Source,
    I: Incoming + Drop + Send + 'static,
    O: Outgoing + Drop + Send + 'static,
    D: Halves<Incoming = I, Outgoing = O> + Send + Drop + 'static,
    L: Dialer,
    C: Clock,
    E: Entropy,
    P: Spawner,
>(
    rt: &R,
    alloc: Global,
    words: &[String],
    source: &mut S,
    outside: &mut Outside<D, L, C, E, P>,
) -> Result<Answer, NoMemory>
where
    D::Link: Send + 'static,
    requires { IsSome outside.old.door }
    ensures due { IfOk result (λ answer. Gave (S.given source.old) (S.given source.new) (λ input.
        Table.Due (Words.asked words.now) input (S.left source.old) (S.left source.new) (Rose (S.faults source.old) (S.faults source.new))
        (dealings_of ⟦<Outside<D, L, C, E, P> as Surroundings>⟧.view outside.old outside.new) answer.outcome answer.text.items)) }
    ensures read_fault { S.faults source.old < S.faults source.new → IfOk result (λ answer. answer.outcome ≡ Outcome.ReadFault) }
    ensures later { S.faults source.old ≤ S.faults source.new }
    ensures unread { Words.reads (Words.asked words.now) ≡ false → source.new ≡ source.old }
    ensures door { IsSome outside.new.door ⊎ Rose (P.faults outside.old.spawner) (P.faults outside.new.spawner) }
    ensures kept { AreKept (dealings_of ⟦<Outside<D, L, C, E, P> as Surroundings>⟧.view outside.old outside.new) }
    ensures joined { AreJoined (dealings_of ⟦<Outside<D, L, C, E, P> as Surroundings>⟧.view outside.old outside.new) }
    ensures returned { IsBack (dealings_of ⟦<Outside<D, L, C, E, P> as Surroundings>⟧.view outside.old outside.new) }
    ensures stays { Words.serves (Words.asked words.now) ≡ false → (outside.new.door ≡ outside.old.door) × (outside.new.spawner ≡ outside.old.spawner) }
    ensures apart { Words.goes_out (Words.asked words.now) ≡ false → outside.new ≡ outside.old }
{
    match Command::of_words(words) {
        None => said(alloc, Outcome::WrongWords, WORDS_LINE),
        Some(command) if command.reads() => answer_read(rt, alloc, command, source, outside),
        Some(command) => answer_to(rt, alloc, command, Bytes::new(alloc), outside),
    }
}
