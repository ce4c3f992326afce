//! The links that were given back, of which the counts are kept.
ghost use Rattle.std.specs.Prelude.{◌≡◌, [], ◌∷◌, ◌++◌};
ghost use Rattle.net_traits.specs.Links.{counted_if, has_ended, has_failed};
ghost use Rattle.net_tcp.specs.Returns.{returned, told_link};

use base_log::Log;

/// How many reads of a link failed, how many writes did, and how many reads found the end; and, for contracts alone, the bytes
/// that its reads gave and that its writes took.
#[derive(Drop)]
pub(crate) struct Counts {
    pub read_faults: u64,
    pub write_faults: u64,
    pub ends: u64,
    pub read: Log,
    pub written: Log,
}

impl Counts {
    /// Whether a read or a write failed.
    pub(crate) fn has_failed(&self) -> bool
        ensures { result ≡ has_failed (told_link self.now) }
    {
        self.read_faults != 0 || self.write_faults != 0
    }

    /// Whether the end was found.
    pub(crate) fn has_ended(&self) -> bool
        ensures { result ≡ has_ended (told_link self.now) }
    {
        self.ends != 0
    }
}

/// The counts of the link that was given back last, and those of the links before it.
#[derive(Drop)]
pub(crate) struct Returns {
    last: Option<Counts>,
    before: Option<Box<Returns>>,
}

impl Returns {
    /// No links. It takes no memory.
    pub(crate) fn new() -> Returns
        ensures { returned result ≡ [] }
    {
        Returns {
            last: None,
            before: None,
        }
    }
}

/// Puts the counts of a link behind the others. `room` is a list of its own, so that it takes no memory.
pub(crate) fn put(returns: &mut Returns, mut room: Box<Returns>, counts: Counts)
    ensures { returned returns.new ≡ returned returns.old ++ told_link counts ∷ [] }
{
    room.last = returns.last.replace(counts);
    room.before = returns.before.take();
    returns.before = Some(room);
}
