//! Laws of generated schedules.
ghost use Rattle.std.specs.Prelude.{ℕ, ◌≤◌};
ghost use Rattle.cmd_generate.specs.Generated.{generated};
ghost use Rattle.cmd_generate.specs.declared.generated.TheConstants.{MOST_SIZE};
ghost use Rattle.cmd_schedule.specs.WireGrammar.{IsWireSchedule};

/// Whatever the number is, the schedule keeps the bounds of the grammar: among so many drawn lines some are no dials.
pub fn generated_schedules_may_run()
    ensures { (number size : ℕ) → size ≤ MOST_SIZE → IsWireSchedule (generated number size) }
{}
