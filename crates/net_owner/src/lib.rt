//! The threads of a server: an acceptor takes connections in, a reader reads each, and all send what they have to one queue.
//! The owner of the queue hands it on as events of connections, one after another: these are a merge of what happened to each
//! connection.
#![tactic(auto)]

mod accepting;
mod acceptor;
mod item;
mod job;
mod memory_spawner;
mod owner;
mod position;
mod queue;
mod reader;
mod reading;
mod rule;
mod settling;
mod spawner;
mod std_spawner;
mod stepping;
mod taker;
mod trouble;
mod worker;

pub use acceptor::{AcceptorAnswer, AcceptorJob};
pub use item::{Item, Piece, What};
pub use job::Job;
pub use memory_spawner::MemorySpawner;
pub use owner::Owner;
pub use position::Slot;
pub use queue::{Receipt, Receiving, Sending, hire, open, post, retire, take};
pub use reader::{ReaderAnswer, ReaderJob};
pub use reading::{MOST_BYTES_ASKED, MOST_BYTES_GIVEN};
pub use rule::{Hire, InOrder, Known, Put, Retire, Sent, Took};
pub use settling::{settle, settle_acceptor};
pub use spawner::Spawner;
pub use std_spawner::StdSpawner;
pub use taker::Taker;
pub use trouble::Trouble;
pub use worker::{Does, Worker};
