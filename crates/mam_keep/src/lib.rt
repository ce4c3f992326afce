//! What a server keeps over restarts: each account's archive (XEP-0313) and the number of the next session. A keeper is
//! loaded once, and then takes each change whole or not at all. Two keepers in memory stand here.
#![tactic(auto)]

mod change;
mod checks;
mod committed;
mod failing_calls;
mod fault;
mod keeper;
mod kept;
mod memory_keeper;
mod sure_keeper;

pub use change::{Append, Appends, Change};
pub use checks::{GREATEST_SESSION, GREATEST_STAMP, may_be_answered, may_be_committed};
pub use fault::KeepFault;
pub use keeper::Keeper;
pub use kept::{Kept, KeptArchive, KeptList};
pub use memory_keeper::MemoryKeeper;
pub use sure_keeper::SureKeeper;
