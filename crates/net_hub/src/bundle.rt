//! What one event puts for one connection.
use base_io::Bytes;

/// What one event puts for one connection: its bytes, joined in order, and whether the connection is shut behind them.
#[derive(Drop)]
pub struct Bundle {
    pub bytes: Bytes,
    pub shut: bool,
}
