//! What to do with messages of which it isn't known whether the server took them (XEP-0198, section 5): a device's intents
//! are submitted again only where its archive, read after a later session began, surely hasn't the last try (XEP-0313,
//! section 4; XEP-0359).
#![tactic(auto)]

mod intents;
mod laws;
mod log_entries;
mod states;

pub use intents::{Intent, Intents, Next, Try};
pub use laws::looking_again_notes_nothing;
pub use states::IntentState;
