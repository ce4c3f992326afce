//! The law of the direct run.
//!
//! The direct run is a crate of definitions and laws (`cmd_direct`) below the code that makes it (`cmd_replay`). A
//! page that is asked for anew is the log's own `restart`.
ghost use Rattle.cmd_direct.specs.Direct.{direct_report};
ghost use Rattle.cmd_direct.specs.History.{direct_history};
ghost use Rattle.cmd_report.specs.LawfulRuns.{KeepsLaws};
ghost use Rattle.cmd_schedule.specs.Grammar.{IsDirectSchedule};
ghost use Rattle.cmd_schedule.specs.Schedules.{ScheduleView};

/// A law: the report of a direct run keeps the five laws of its version. What the archives hold is what was taken, or
/// the newest of it; each message to an existing account was taken at most once, in order, and exactly once where it
/// was acknowledged; each log is a prefix of its account's archive, or runs of its history that are broken only where
/// entries were purged; and the pages of a log are tiles of it, each as fresh as its archive.
pub fn direct_is_lawful()
    ensures { (s : ScheduleView) → IsDirectSchedule s → KeepsLaws (direct_history s) s (direct_report s) }
{}
