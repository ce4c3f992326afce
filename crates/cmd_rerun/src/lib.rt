//! What a server did is done again from its journal: the server's core by itself, over the accounts and the events that a
//! text says.
#![tactic(auto)]

mod configuring;
mod events;
mod laws;
mod outputs;
mod runs;

pub use configuring::server_of;
pub use laws::each_account_is_told;
pub use runs::{rerun, rerun_bytes};
