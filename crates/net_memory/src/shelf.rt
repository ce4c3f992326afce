//! Links that were given back, kept without more memory.
ghost use Rattle.std.specs.Prelude.{◌≡◌, [], ◌∷◌, ◌++◌, MatchOption};
ghost use Rattle.std.specs.Option.{option_copied};
ghost use Rattle.net_memory.specs.Shelves.{before_of, last_of, links_of, told_of};

use crate::link_state::LinkState;
use std::mem;

/// Links, each with the shelf of those that were put there before it. The first shelf may be empty.
#[derive(Drop)]
pub struct Shelf {
    link: Option<LinkState>,
    following: Option<Box<Shelf>>,
}

impl Shelf {
    /// No links. It takes no memory.
    pub(crate) fn new() -> Shelf
        ensures { links_of result ≡ [] }
    {
        Shelf {
            link: None,
            following: None,
        }
    }

    /// The link that was put here last.
    pub fn link(&self) -> Option<&LinkState>
        ensures { told_of (option_copied result) ≡ last_of self.now }
    {
        self.link.as_ref()
    }

    /// The shelf behind, with the links that were put there before.
    pub fn following(&self) -> Option<&Shelf>
        ensures { MatchOption (option_copied result) (before_of self.now ≡ []) (λ shelf. links_of shelf ≡ before_of self.now) }
    {
        match &self.following {
            Some(shelf) => Some(shelf),
            None => None,
        }
    }
}

/// Puts a link behind the others. `room` is a shelf of its own, so that it takes no memory.
pub(crate) fn put(shelf: &mut Shelf, mut room: Box<Shelf>, link: LinkState)
    ensures { links_of shelf.new ≡ links_of shelf.old ++ link.told ∷ [] }
{
    room.link = shelf.link.replace(link);
    room.following = shelf.following.take();
    shelf.following = Some(room);
}
