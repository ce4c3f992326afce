//! What stands in a writer's queue.
use base_io::Bytes;

/// Bytes to write, or that there are no more.
#[derive(Drop)]
pub enum Parcel {
    Put(Bytes),
    End,
}
