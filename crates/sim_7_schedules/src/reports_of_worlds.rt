//! The laws.
ghost use Rattle.sim_7_schedules.specs.ReportsOfWorldsLaws as laws;

/// A law: where a world of bytes encodes a world of items that stands beside a world of the two applications, its
/// report is of that: its takes, its archives, and of each device its line. A device whose line says that it is settled is
/// at rest.
pub fn reports_run()
    ensures { laws.ReportsRun }
{}

/// A law: and what it shows is what that world shows: of each account what its archive keeps, and of each device how many
/// pages it took over and asked for.
pub fn worlds_represent()
    ensures { laws.WorldsRepresent }
{}
