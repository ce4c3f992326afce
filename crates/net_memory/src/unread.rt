//! Bytes in memory, less those that were given.
ghost use Rattle.std.specs.Prelude.{◌≡◌, ◌<◌, ◌≤◌, [], ◌++◌, length, take};

use base_io::Bytes;
use std::marker::Model;

/// Bytes in memory, of which some first ones were given.
#[derive(Drop)]
pub(crate) struct Unread {
    bytes: Bytes,
    at: usize,
}

impl Model for Unread {
    ghost use Rattle.std.specs.Prelude.{◌≤◌, length, take, drop};
    ghost use Rattle.net_memory.specs.InMemory.{UnreadView};

    ghost Value = { UnreadView };

    ghost view = { λ u. record { given = take u.at u.bytes.items; left = drop u.at u.bytes.items } };

    ghost invariant = { λ u. u.at ≤ length u.bytes.items };
}

impl Unread {
    /// All of `bytes` is left.
    pub(crate) fn new(bytes: Bytes) -> Unread
        ensures { result ≡ record { given = []; left = bytes.items } }
    {
        Unread { bytes, at: 0 }
    }

    /// The bytes that were given, without a copy.
    pub(crate) fn given(&self) -> &[u8]
        ensures { result.now ≡ self.now.given }
    {
        &self.bytes.as_slice()[..self.at]
    }

    /// Moves bytes from the front of what is left to the front of `buf`, as many as fit and at most `step`, and answers how
    /// many.
    pub(crate) fn give(&mut self, step: usize, buf: &mut [u8]) -> usize
        requires { 1 ≤ step }
        ensures most { result ≤ step }
        ensures room { result ≤ length buf.new }
        ensures given { self.new.given ≡ self.old.given ++ take result buf.new }
        ensures left { self.old.left ≡ take result buf.new ++ self.new.left }
        ensures end { result ≡ 0 → 0 < length buf.new → self.new.left ≡ [] }
    {
        let rest = &self.bytes.as_slice()[self.at..];
        let n = copy_front(rest, step, buf);
        self.at += n;
        n
    }
}

// Copies bytes from the front of `from` to the front of `to`, as many as fit and at most `step`, and answers how many.
fn copy_front(from: &[u8], step: usize, to: &mut [u8]) -> usize
    requires { 1 ≤ step }
    ensures most { result ≤ step }
    ensures bound { result ≤ length from.now }
    ensures room { result ≤ length to.new }
    ensures bytes { take result to.new ≡ take result from.now }
    ensures end { result ≡ 0 → 0 < length to.new → from.now ≡ [] }
{
    let n = from.len().min(step).min(to.len());
    to[..n].copy_from_slice(&from[..n]);
    n
}
