//! Tests of what the commands stand on: generated schedules, replays, journals and scripts.
#![tactic(auto)]

#[cfg(test)]
mod generated;
#[cfg(test)]
mod intent_files;
#[cfg(test)]
mod intent_runs;
#[cfg(test)]
mod journal_texts;
#[cfg(test)]
mod journals;
#[cfg(test)]
mod report_tests;
#[cfg(test)]
mod reports;
#[cfg(test)]
mod run_tests;
#[cfg(test)]
mod runs;
#[cfg(test)]
mod schedule_tests;
#[cfg(test)]
mod sync_texts;
#[cfg(test)]
mod syncs;
