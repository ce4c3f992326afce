//! A thread for each connection that writes what a server puts for it, so that a peer that doesn't read holds nobody up: the
//! server's thread hands over parcels of bytes to the writer's queue without waiting, and the writer writes them in order. A
//! connection whose queue is full is overrun: it gets nothing more, and ends.
#![tactic(auto)]

mod handing;
mod lane;
mod parcel;
mod parcels;
mod sender;
mod writer;
mod writing;

pub use lane::{Lane, MOST_WAITING};
pub use parcel::Parcel;
pub use parcels::{MOST_BYTES_JOINED, Parcels};
pub use sender::Sender;
pub use writer::{WriterAnswer, WriterJob};
