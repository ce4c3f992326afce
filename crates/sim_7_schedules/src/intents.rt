//! The laws of files of intents.
//!
//! The premise of the first one is that of the headline: the file is one of the grammar. What is lost, cut, resumed,
//! failed or purged meanwhile is up to the file.
ghost use Rattle.sim_7_schedules.specs.IntentsLaws as laws;

use law_intents::an_intent_is_taken_once_at_most;

/// A law: where the run of a file of intents ends, one message at most was taken of all tries of an intent (`once`), and
/// none of those before the last (`newest`). Where the intent is done, and to an account that exists, exactly one was
/// (`done`); where it is absent, none was (`absent`).
pub fn intents_of_files_are_taken_once_at_most()
    ensures once { laws.IntentsOfFilesAreTakenOnceAtMostOnce }
    ensures newest { laws.IntentsOfFilesAreTakenOnceAtMostNewest }
    ensures done { laws.IntentsOfFilesAreTakenOnceAtMostDone }
    ensures absent { laws.IntentsOfFilesAreTakenOnceAtMostAbsent }
{
    an_intent_is_taken_once_at_most()
}

/// A law: an intent has a further try only where the one before it was the last and absent. A line of the run submitted it
/// then, and the client accepted that as this further try.
pub fn intents_are_tried_again_where_absent()
    ensures { laws.IntentsAreTriedAgainWhereAbsent }
{}
