//! A keeper over a file that SQLite reads. No clause says what the file has; that what is loaded from it is an answer,
//! and that a fault is counted, is proved whatever it has.
#![tactic(auto)]

mod bodies;
mod database;
mod rows;
mod sqlite_keeper;
mod statements;

pub use sqlite_keeper::SqliteKeeper;
