//! The law.
ghost use Rattle.sim_7_schedules.specs.LawsKeptLaws.{SchedulesThatRunAreLawful};

/// A law: where each move of a list of lines leads to a world that stands beside one of the two applications, to which
/// events lead that are its lines' (`ScheduleSimulates`), the list's report has the form of its version and keeps the five
/// laws of that version, over what each world of its history shows.
pub fn schedules_that_run_are_lawful()
    ensures { SchedulesThatRunAreLawful }
{}
