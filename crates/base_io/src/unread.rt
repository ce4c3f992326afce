//! Bytes in memory, less those that were given.
ghost use Rattle.std.specs.Prelude.{◌≡◌, ◌<◌, ◌≤◌, [], ◌++◌, length, take};

use crate::bytes::Bytes;
use std::marker::Model;

/// Bytes in memory, less those that were given. Contracts see what is left.
#[derive(Drop)]
pub struct Unread {
    bytes: Bytes,
    at: usize,
}

impl Model for Unread {
    ghost use Rattle.std.specs.Prelude.{List, ℕ, ◌≤◌, length, drop};

    ghost Value = { List ℕ };

    ghost view = { λ u. drop u.at u.bytes.items };

    ghost invariant = { λ u. u.at ≤ length u.bytes.items };
}

impl Unread {
    /// All of `bytes` is left.
    pub fn new(bytes: Bytes) -> Unread
        ensures { result ≡ bytes.items }
    {
        Unread { bytes, at: 0 }
    }

    /// Moves bytes from the front of what is left to the front of `buf`, as many as fit and at most `step`,
    /// and answers how many.
    pub fn give(&mut self, step: usize, buf: &mut [u8]) -> usize
        requires { 1 ≤ step }
        ensures most { result ≤ step }
        ensures room { result ≤ length buf.new }
        ensures bytes { self.old ≡ take result buf.new ++ self.new }
        ensures end { result ≡ 0 → 0 < length buf.new → self.new ≡ [] }
    {
        let rest = &self.bytes.as_slice()[self.at..];
        let n = copy_front(rest, step, buf);
        self.at += n;
        n
    }
}

/// Copies bytes from the front of `from` to the front of `to`, as many as fit and at most `step`, and
/// answers how many.
fn copy_front(from: &[u8], step: usize, to: &mut [u8]) -> usize
    requires { 1 ≤ step }
    ensures most { result ≤ step }
    ensures bound { result ≤ length from.now }
    ensures room { result ≤ length to.new }
    ensures bytes { take result to.new ≡ take result from.now }
    ensures end { result ≡ 0 → 0 < length to.new → from.now ≡ [] }
{
    let n = from.len().min(step).min(to.len());
    to[..n].copy_from_slice(&from[..n]);
    n
}
