//! What went wrong outside while connections were served.
//!
//! The owner keeps what went wrong first (`Trouble`); its causes are told by the counts at entry and now. What it
//! keeps whatever failed (`IsHeld`) is enough to drain the queue and to give links back after want of memory. A
//! reader's place is marked before want of memory is answered: else a drain would wait for an item that was taken.
ghost use Rattle.std.specs.Prelude.{◌≡◌};
ghost use Rattle.net_owner.specs.Troubles.{first_of};

/// What went wrong outside, while the owner went on.
#[derive(Clone, Copy, Debug, PartialEq, Eq)]
pub enum Trouble {
    /// A reader could not be started.
    Worker,
    /// The source of random bytes failed.
    Entropy,
}

// What was met first stays.
pub(crate) fn first(met: Option<Trouble>, trouble: Trouble) -> Option<Trouble>
    ensures { result ≡ first_of met trouble }
{
    match met {
        None => Some(trouble),
        Some(_) => met,
    }
}
