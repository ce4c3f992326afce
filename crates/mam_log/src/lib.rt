//! A device's log: what it took of its account's archive, page by page (XEP-0313).
#![tactic(auto)]

mod closing;
mod device_log;
mod faults;
mod fin;
mod held;
mod id_order;
mod laws;
mod log_entry;
mod open_page;
mod tile;

pub use device_log::Log;
pub use faults::{BeginFault, RestartFault, ResultFault};
pub use fin::{FinFault, PageOutcome};
pub use held::MOST_HELD;
pub use laws::entries_are_tiled;
pub use log_entry::{LogEntries, LogEntry};
pub use tile::{Tile, Tiles};
