//! Laws of intents, over the two applications: a message that is submitted again only where its last submission surely
//! wasn't taken is taken once at most.
#![tactic(auto)]

mod intents;

pub use intents::{
    an_intent_is_taken_once_at_most, intents_are_tried_again, looking_again_changes_nothing,
};
