//! A call of the program: its words, its input, what it writes and its exit status.
//!
//! `run` has one list of clauses for all commands. `done_replay` is spelled out; the rest is said once, by `Due` and
//! `MustAnswer`, with a case for each command. What each command comes to is derived in
//! `crates/cmd_run/proofs/Rows.antt`.
//!
//! The headline is one clause for both kinds of schedule. `IsReportOf` has a case for each, in the same words.
ghost use Rattle.std.specs.Prelude.{◌≡◌, ◌≢◌, false, ◌<◌, ◌≤◌, ◌⊎◌, ◌++◌, List, ℕ, IfSome, IsSome, IsTrue};
ghost use Rattle.std.specs.Io.KnownBytes.{Appends, Keeps, IsAtEnd};
ghost use Rattle.base_io.specs.Counts.{Rose, Quiet};
ghost use Rattle.base_io.specs.Given.{Gave};
ghost use Rattle.base_io.specs.Prefixes.{AppendsPrefix};
ghost use Rattle.cmd_generate.specs.Generated.{generated};
ghost use Rattle.cmd_generate.specs.Summary.{summary_of};
ghost use Rattle.cmd_report.specs.ReportText.{text_of};
ghost use Rattle.cmd_report.specs.Reports.{ReportView};
ghost use Rattle.cmd_schedule.specs.Kinds.{IsSchedule, schedule_text};
ghost use Rattle.cmd_schedule.specs.WireGrammar.{IsWireSchedule};
ghost use Rattle.cmd_schedule.specs.declared.schedule.Schedule.{Schedule};
ghost use Rattle.cmd_run.specs.Dealings.{AreJoined, AreKept, IsBack, dealings_of};
ghost use Rattle.cmd_run.specs.Words.{asked, goes_out, reads, serves};
ghost use Rattle.cmd_run.specs.Table.{code_of, is_status, IsInput, IsReportOf, IsWireReport, Due, MustAnswer, generated_summary};

use crate::answering::due;
use crate::command::Command;
use crate::outcome::Outcome;
use crate::outside::Outside;
use crate::surroundings::Surroundings;
use base_io::{Sink, Source, write_all};
use net_owner::Spawner;
use net_traits::{Clock, Dialer, Entropy, Halves, Incoming, Outgoing};
use std::alloc::Global;
use std::sync::Wait;
use std::thread::Threads;

/// Writes what is due, and answers the exit status.
fn write_due<
    R: Threads + Wait + Copy + Send + 'static,
    S: Source,
    K: Sink,
    I: Incoming + Drop + Send + 'static,
    O: Outgoing + Drop + Send + 'static,
    D: Halves<Incoming = I, Outgoing = O> + Send + Drop + 'static,
    L: Dialer,
    C: Clock,
    E: Entropy,
    P: Spawner,
>(
    rt: &R,
    alloc: Global,
    words: &[String],
    source: &mut S,
    sink: &mut K,
    outside: &mut Outside<D, L, C, E, P>,
) -> u8
where
    D::Link: Send + 'static,
    requires { IsSome outside.old.door }
    ensures told { result ≢ 5 → result ≢ 6 → (outcome : Outcome) × (result ≡ code_of outcome)
        × Gave (S.given source.old) (S.given source.new) (λ input. (text : List ℕ)
        × Due (asked words.now) input (S.left source.old) (S.left source.new) (Rose (S.faults source.old) (S.faults source.new))
        (dealings_of ⟦<Outside<D, L, C, E, P> as Surroundings>⟧.view outside.old outside.new) outcome text
        × Appends (K.written sink.old) (K.written sink.new) text) }
    ensures prefix { result ≡ 5 → Rose (K.faults sink.old) (K.faults sink.new) × ((outcome : Outcome)
        × Gave (S.given source.old) (S.given source.new) (λ input. (text : List ℕ)
        × Due (asked words.now) input (S.left source.old) (S.left source.new) (Rose (S.faults source.old) (S.faults source.new))
        (dealings_of ⟦<Outside<D, L, C, E, P> as Surroundings>⟧.view outside.old outside.new) outcome text
        × AppendsPrefix (K.written sink.old) (K.written sink.new) text)) }
    ensures no_memory { result ≡ 6 → Keeps (K.written sink.old) (K.written sink.new) }
    ensures write_fault_only { K.faults sink.old < K.faults sink.new → result ≡ 5 }
    ensures read_fault_only { S.faults source.old < S.faults source.new → (result ≡ 4) ⊎ (result ≡ 5) ⊎ (result ≡ 6) }
    ensures unread { reads (asked words.now) ≡ false → source.new ≡ source.old }
    ensures door { IsSome outside.new.door ⊎ Rose (P.faults outside.old.spawner) (P.faults outside.new.spawner) }
    ensures kept { AreKept (dealings_of ⟦<Outside<D, L, C, E, P> as Surroundings>⟧.view outside.old outside.new) }
    ensures joined { AreJoined (dealings_of ⟦<Outside<D, L, C, E, P> as Surroundings>⟧.view outside.old outside.new) }
    ensures returned { IsBack (dealings_of ⟦<Outside<D, L, C, E, P> as Surroundings>⟧.view outside.old outside.new) }
    ensures stays { serves (asked words.now) ≡ false → (outside.new.door ≡ outside.old.door) × (outside.new.spawner ≡ outside.old.spawner) }
    ensures apart { goes_out (asked words.now) ≡ false → outside.new ≡ outside.old }
    ensures source_later { S.faults source.old ≤ S.faults source.new }
    ensures sink_later { K.faults sink.old ≤ K.faults sink.new }
{
    match due(rt, alloc, words, source, outside) {
        Ok(answer) => match write_all(sink, answer.text.as_slice()) {
            Ok(()) => answer.outcome.code(),
            Err(_) => 5,
        },
        Err(_) => 6,
    }
}

/// Does what the words of a command line, without the program's name, ask for, and answers the exit status.
///
/// | Status | Comes | Written |
/// |---|---|---|
/// | 0 | where it was done | the text asked for |
/// | 2 | exactly where the words are not in the table | `words` |
/// | 3 | exactly where the input, read to its end, is not the text of a schedule, of `intents` of a file of intents, of `rerun` of accounts and a journal, of `serve` of accounts, of `sync` of a script, or of `check` something is wrong with the stream | its first bad line, and the reason; of `check` what is told of the stream |
/// | 4 | only where a read failed | `read fault` |
/// | 5 | exactly where a write failed | a prefix of what was due |
/// | 6 | where memory ran out | nothing |
/// | 7 | of `serve` only where the door failed before its connections were over; of `sync` only where the dialer or its link failed, or the link ended, before the script was done | `link fault` |
/// | 8 | of `sync` only where the server has to answer for it that the script was not done | `peer`, and what it did |
/// | 9 | of `serve` only where a thread could not be started | `no worker` |
/// | 10 | of `serve` and `sync` only where no random bytes were drawn | `entropy fault` |
/// | 11 | exactly where the source gave more than `MOST_BYTES_READ` bytes | `too long` |
///
/// At 7 and 8 `cause` of the outside tells which it was.
///
/// At status 0 of `replay` the report is that of the schedule's run, direct or over connections, and keeps the five laws of
/// its version: no message is lost or doubled within what they say, and each device's log is of its account's history. So
/// does the report that `generate` sums up, and that of `intents`, in which moreover of all tries of a message that is an intent
/// one at most was taken. What `check` tells, at 0 and 3, is what the grammar of streams says.
///
/// Each "exactly" yields to want of memory, and to what comes before it in the order words, read, length, grammar,
/// write. Clauses speak of what the source's calls gave, and of what the sink's took where it tells that, as `StdSink` does.
pub fn run<
    R: Threads + Wait + Copy + Send + 'static,
    S: Source,
    K: Sink,
    I: Incoming + Drop + Send + 'static,
    O: Outgoing + Drop + Send + 'static,
    D: Halves<Incoming = I, Outgoing = O> + Send + Drop + 'static,
    L: Dialer,
    C: Clock,
    E: Entropy,
    P: Spawner,
>(
    rt: &R,
    alloc: Global,
    words: &[String],
    source: &mut S,
    sink: &mut K,
    outside: &mut Outside<D, L, C, E, P>,
) -> u8
where
    D::Link: Send + 'static,
    requires { IsSome outside.old.door }
    // What the source gave in this call, to its end, is the text of one schedule, direct or wire, of either version; and so is
    // what it had left before, where it tells that. What was written is the text of its report
    // and nothing else, and that report keeps the five laws of the schedule's version.
    ensures done_replay { result ≡ 0 → asked words.now ≡ Some Command.Replay → (schedule : Schedule) × (report : ReportView)
        × IsSchedule schedule
        × (S.given source.new ≡ S.given source.old ++ schedule_text schedule)
        × IfSome (S.left source.old) (λ input. input ≡ schedule_text schedule)
        × IsAtEnd (S.left source.new)
        × IsReportOf schedule report
        × Appends (K.written sink.old) (K.written sink.new) (text_of report) }
    // What was written is the summary of the report of the schedule that the two numbers make, and nothing else. That schedule is
    // a wire schedule, and its report keeps the five laws as that of `replay` does.
    ensures done_generate { (number size : ℕ) → result ≡ 0 → asked words.now ≡ Some (Command.Generate number size)
        → (report : ReportView)
        × IsWireSchedule (generated number size)
        × IsWireReport (generated number size) report
        × (generated_summary number size ≡ summary_of (generated number size) report)
        × Appends (K.written sink.old) (K.written sink.new) (generated_summary number size) }
    // Whatever outcome the status is the code of, its text is due of what the source gave, and was written and nothing else.
    ensures answered { (outcome : Outcome) → result ≡ code_of outcome → Gave (S.given source.old) (S.given source.new) (λ input. (text : List ℕ)
        × Due (asked words.now) input (S.left source.old) (S.left source.new) (Rose (S.faults source.old) (S.faults source.new))
        (dealings_of ⟦<Outside<D, L, C, E, P> as Surroundings>⟧.view outside.old outside.new) outcome text
        × Appends (K.written sink.old) (K.written sink.new) text) }
    // The converse: where nothing failed, the outcome that there must be for what the source gave, or for what it had left before,
    // is the one that there is.
    ensures exactly { (outcome : Outcome) (input : List ℕ) → IsInput (S.given source.old) (S.given source.new) (S.left source.old) input
        → MustAnswer (asked words.now) input (Quiet (S.faults source.old) (S.faults source.new))
        (dealings_of ⟦<Outside<D, L, C, E, P> as Surroundings>⟧.view outside.old outside.new) outcome
        → Quiet (K.faults sink.old) (K.faults sink.new) → (result ≡ code_of outcome) ⊎ (result ≡ 6) }
    ensures read_fault_only { S.faults source.old < S.faults source.new → (result ≡ 4) ⊎ (result ≡ 5) ⊎ (result ≡ 6) }
    // What went out is a prefix of the text that was due.
    ensures write_fault { result ≡ 5 → Rose (K.faults sink.old) (K.faults sink.new) × ((outcome : Outcome)
        × Gave (S.given source.old) (S.given source.new) (λ input. (text : List ℕ)
        × Due (asked words.now) input (S.left source.old) (S.left source.new) (Rose (S.faults source.old) (S.faults source.new))
        (dealings_of ⟦<Outside<D, L, C, E, P> as Surroundings>⟧.view outside.old outside.new) outcome text
        × AppendsPrefix (K.written sink.old) (K.written sink.new) text)) }
    ensures write_fault_only { K.faults sink.old < K.faults sink.new → result ≡ 5 }
    ensures no_memory { result ≡ 6 → Keeps (K.written sink.old) (K.written sink.new) }
    ensures door { IsSome outside.new.door ⊎ Rose (P.faults outside.old.spawner) (P.faults outside.new.spawner) }
    // The links that were given back to the door stand behind those that were there; that these are all that it handed out is
    // said with the text that is due. The link that the dialer handed out was given back to it.
    ensures given_back { AreKept (dealings_of ⟦<Outside<D, L, C, E, P> as Surroundings>⟧.view outside.old outside.new) }
    // No thread that was started is lost: as many as the spawner's count rose by are the acceptor and the readers whose links
    // were given back to the door.
    ensures joined { AreJoined (dealings_of ⟦<Outside<D, L, C, E, P> as Surroundings>⟧.view outside.old outside.new) }
    ensures returned { IsBack (dealings_of ⟦<Outside<D, L, C, E, P> as Surroundings>⟧.view outside.old outside.new) }
    ensures stays { serves (asked words.now) ≡ false → (outside.new.door ≡ outside.old.door) × (outside.new.spawner ≡ outside.old.spawner) }
    ensures apart { goes_out (asked words.now) ≡ false → outside.new ≡ outside.old }
    ensures known { IsTrue (is_status result) }
    ensures unread { reads (asked words.now) ≡ false → source.new ≡ source.old }
    ensures source_later { S.faults source.old ≤ S.faults source.new }
    ensures sink_later { K.faults sink.old ≤ K.faults sink.new }
{
    write_due(rt, alloc, words, source, sink, outside)
}
