//! Queues of nodes in one arena.
ghost use Rattle.std.specs.List.{concat};
ghost use Rattle.std.specs.Prelude.{◌≡◌, ◌≢◌, ◌+◌, ◌-◌, ◌<◌, ◌≤◌, ◌^◌, ◌++◌, ◌∷◌, ℕ, IfSome, drop, length, min, OnOk};
ghost use Rattle.slab.specs.Slab.{ContainsKey, slab_len, with_value};
ghost use Rattle.sm_acks.specs.Arena.{AreApart, AreHeld, IsLinked, Lacks, LeavesOthers, bytes_along, bytes_in, next_in, node_at, path, path_of, stanzas_at};
ghost use Rattle.sm_acks.specs.Queues.{stanzas_in};

use base_io::{Bytes, ListOf, NoMemory};
use slab::Slab;
use std::alloc::Global;

/// A stanza, and the place of the node behind it in its queue. The last node of a queue has any place there.
#[derive(Drop)]
pub(crate) struct Node {
    pub(crate) bytes: Bytes,
    pub(crate) next: usize,
}

/// The places of the first and of the last node of a queue, and how many nodes it has. Of an empty queue the places say
/// nothing.
#[derive(Clone, Copy)]
pub(crate) struct Ends {
    pub(crate) first: usize,
    pub(crate) last: usize,
    pub(crate) len: usize,
}

// Writes which node stands behind another.
fn link(nodes: &mut Slab<Node>, at: usize, next: usize)
    requires { ContainsKey nodes.old at }
    ensures { IfSome (node_at nodes.old.slots at) (λ node. nodes.new ≡ with_value nodes.old at (record node { next = next })) }
{
    match nodes.get_mut(at) {
        Some(node) => node.next = next,
        None => unreachable!(),
    }
}

impl Ends {
    /// A queue without nodes.
    pub(crate) fn none() -> Ends
        ensures { result ≡ record { first = 0; last = 0; len = 0 } }
    {
        Ends {
            first: 0,
            last: 0,
            len: 0,
        }
    }

    /// A queue of one node.
    pub(crate) fn one(node: usize) -> Ends
        ensures { result ≡ record { first = node; last = node; len = 1 } }
    {
        Ends {
            first: node,
            last: node,
            len: 1,
        }
    }

    /// Puts the nodes of another queue behind those of this one. Of all nodes only the last one of this queue changes, and
    /// no stanza moves.
    pub(crate) fn join(&mut self, nodes: &mut Slab<Node>, following: Ends)
        requires linked { IsLinked nodes.old.slots self.old }
        requires following { IsLinked nodes.old.slots following }
        requires apart { AreApart (path_of nodes.old.slots self.old) (path_of nodes.old.slots following) }
        requires few { self.old.len + following.len < 2 ^ 64 }
        ensures linked { IsLinked nodes.new.slots self.new }
        ensures path { path_of nodes.new.slots self.new ≡ path_of nodes.old.slots self.old ++ path_of nodes.old.slots following }
        ensures stanzas { stanzas_at nodes.new.slots self.new ≡ stanzas_at nodes.old.slots self.old ++ stanzas_at nodes.old.slots following }
        ensures len { self.new.len ≡ self.old.len + following.len }
        ensures others { LeavesOthers nodes.old nodes.new (path_of nodes.old.slots self.old) }
    {
        if following.len == 0 {
            return;
        }
        if self.len == 0 {
            *self = following;
            return;
        }
        link(nodes, self.last, following.first);
        self.last = following.last;
        self.len += following.len;
    }

    /// Takes the first node out, and gives its stanza.
    pub(crate) fn take(&mut self, nodes: &mut Slab<Node>) -> Bytes
        requires linked { IsLinked nodes.old.slots self.old }
        requires some { 0 < self.old.len }
        ensures linked { IsLinked nodes.new.slots self.new }
        ensures path { path_of nodes.old.slots self.old ≡ self.old.first ∷ path_of nodes.new.slots self.new }
        ensures stanzas { stanzas_at nodes.old.slots self.old ≡ result.items ∷ stanzas_at nodes.new.slots self.new }
        ensures len { self.new.len + 1 ≡ self.old.len }
        ensures others { (at : ℕ) → at ≢ self.old.first → node_at nodes.new.slots at ≡ node_at nodes.old.slots at }
        ensures nodes { slab_len nodes.new + 1 ≡ slab_len nodes.old }
        ensures capacity { nodes.new.capacity ≡ nodes.old.capacity }
    {
        let Node { bytes, next } = nodes.remove(self.first);
        self.first = next;
        self.len -= 1;
        bytes
    }

    /// Takes so many nodes out, the first ones, with their stanzas.
    pub(crate) fn drop_first(&mut self, nodes: &mut Slab<Node>, n: u64)
        requires linked { IsLinked nodes.old.slots self.old }
        requires within { n ≤ self.old.len }
        ensures linked { IsLinked nodes.new.slots self.new }
        ensures path { path_of nodes.new.slots self.new ≡ drop n (path_of nodes.old.slots self.old) }
        ensures stanzas { stanzas_at nodes.new.slots self.new ≡ drop n (stanzas_at nodes.old.slots self.old) }
        ensures len { self.new.len + n ≡ self.old.len }
        ensures others { (at : ℕ) → Lacks at (path_of nodes.old.slots self.old) → node_at nodes.new.slots at ≡ node_at nodes.old.slots at }
        ensures nodes { slab_len nodes.new + n ≡ slab_len nodes.old }
        ensures capacity { nodes.new.capacity ≡ nodes.old.capacity }
    {
        for _ in 0..n {
            let _ = self.take(nodes);
        }
    }

    /// The place of a node, counted from 0.
    pub(crate) fn position(&self, nodes: &Slab<Node>, i: usize) -> usize
        requires linked { IsLinked nodes.now.slots self.now }
        requires within { i < self.now.len }
        ensures { drop i (path_of nodes.now.slots self.now) ≡ path nodes.now.slots (self.now.len - i) result }
    {
        let mut at = self.first;
        let mut k = 0;
        while k < i {
            at = next_of(nodes, at);
            k += 1;
        }
        at
    }
}

// The place of the node behind another.
fn next_of(nodes: &Slab<Node>, at: usize) -> usize
    requires { ContainsKey nodes.now at }
    ensures { result ≡ next_in (node_at nodes.now.slots at) }
{
    match nodes.get(at) {
        Some(node) => node.next,
        None => unreachable!(),
    }
}

/// The stanza of a node.
pub(crate) fn bytes_of(nodes: &Slab<Node>, at: usize) -> &Bytes
    requires { ContainsKey nodes.now at }
    ensures { result.now.items ≡ bytes_in (node_at nodes.now.slots at) }
{
    match nodes.get(at) {
        Some(node) => &node.bytes,
        None => unreachable!(),
    }
}

/// How many bytes the stanzas of so many nodes have, from this one on, or 2^64 - 1 where that is less.
pub(crate) fn bytes_len(nodes: &Slab<Node>, first: usize, count: usize) -> usize
    requires { AreHeld nodes.now.slots (path nodes.now.slots count first) }
    ensures { result ≡ min (length (concat (bytes_along nodes.now.slots (path nodes.now.slots count first)))) (2 ^ 64 - 1) }
{
    let mut len = 0usize;
    let mut at = first;
    let mut left = count;
    while left > 0 {
        len = len.saturating_add(bytes_of(nodes, at).as_slice().len());
        at = next_of(nodes, at);
        left -= 1;
    }
    len
}

/// Appends the stanzas of so many nodes, from this one on. It takes no memory.
pub(crate) fn append_bytes(nodes: &Slab<Node>, first: usize, count: usize, out: &mut Bytes)
    requires held { AreHeld nodes.now.slots (path nodes.now.slots count first) }
    requires room { length (concat (bytes_along nodes.now.slots (path nodes.now.slots count first))) ≤ out.old.spare }
    ensures { out.new.items ≡ out.old.items ++ concat (bytes_along nodes.now.slots (path nodes.now.slots count first)) }
{
    let mut at = first;
    let mut left = count;
    while left > 0 {
        out.append_reserved(bytes_of(nodes, at).as_slice());
        at = next_of(nodes, at);
        left -= 1;
    }
}

/// Adds copies of the stanzas of so many nodes, from this one on. A refusal leaves a part of them added.
pub(crate) fn copy_stanzas(
    alloc: Global,
    nodes: &Slab<Node>,
    first: usize,
    count: usize,
    out: &mut ListOf<Bytes>,
) -> Result<(), NoMemory>
    requires { AreHeld nodes.now.slots (path nodes.now.slots count first) }
    ensures { OnOk result (stanzas_in out.new.items ≡ stanzas_in out.old.items ++ bytes_along nodes.now.slots (path nodes.now.slots count first)) }
{
    let mut at = first;
    let mut left = count;
    while left > 0 {
        out.push(Bytes::from_slice(alloc, bytes_of(nodes, at).as_slice())?)?;
        at = next_of(nodes, at);
        left -= 1;
    }
    Ok(())
}
