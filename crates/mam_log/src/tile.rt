//! What is kept of a page.
use base_io::{ListOf, Text};

/// What is kept of a page beside its results: the id behind which it was asked for, how many results it had,
/// whether it was the last one, and how many entries the archive had then.
#[derive(Drop)]
pub struct Tile {
    pub after: Option<Text>,
    pub count: u64,
    pub complete: bool,
    pub total: u64,
}

/// Tiles, in order.
pub type Tiles = ListOf<Tile>;
