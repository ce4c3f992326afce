//! What the other crates share of memory and of the outside: texts, bytes and lists whose calls answer
//! want of memory, names with their places, and sources and sinks whose failures are counted.
#![tactic(auto)]

mod ascii;
mod bytes;
mod failing_calls;
mod fault;
mod list;
mod memory_sink;
mod memory_source;
mod name_index;
mod sink;
mod source;
mod std_sink;
mod std_source;
mod text;
mod unread;
mod whole_reads;
mod whole_writes;

pub use ascii::ascii_str;
pub use bytes::Bytes;
pub use fault::{Failed, NoMemory};
pub use list::{Copied, ListOf, Names, Numbers};
pub use memory_sink::{MemorySink, SureSink};
pub use memory_source::{MemorySource, SureSource};
pub use name_index::NameIndex;
pub use sink::Sink;
pub use source::Source;
pub use std_sink::StdSink;
pub use std_source::StdSource;
pub use text::Text;
pub use whole_reads::{MOST_BYTES_READ, ReadAllFault, read_all};
pub use whole_writes::{WriteFault, write_all};
