//! The queues of stanzas, by their numbers.
//!
//! A pool is seen as the queues that live, and contracts speak of the list under a queue's number. A queue is a chain
//! of nodes in one arena (`Slab`), and its ends are found by its number in a hash map: numbers only rise, so a slab
//! of ends would need a generation beside each.
ghost use Rattle.std.specs.HashMap as hash;
ghost use Rattle.std.specs.Prelude.{◌≡◌, ◌≢◌, ℕ, ◌+◌, ◌<◌, ◌≤◌, ◌^◌, ◌↔◌, [], ◌∷◌, ◌++◌, drop, length, nat_eq, slice_get, IfOk, IfSome, IfNone, IsNone, IsSome, None, OnOk, OnErr, OnSome, Some, IsTrue};
ghost use Rattle.std.specs.List.{concat};
ghost use Rattle.sm_acks.specs.Arena.{held_in};
ghost use Rattle.sm_acks.specs.Queues.{Lives, list_of, nodes_of, stanzas_in, stanzas_of};

use crate::nodes::{Ends, Node, append_bytes, bytes_len, bytes_of, copy_stanzas};
use base_io::{Bytes, ListOf, NoMemory};
use slab::Slab;
use std::alloc::Global;
use std::collections::HashMap;
use std::marker::Model;

/// The number of a queue. A pool gives them from 1 upward, each once.
pub type QueueId = u64;

/// Queues of stanzas, in one pool. Contracts see it as the list of stanzas of each queue that lives, the number of
/// queues that were made, and the number `spare` of further stanzas that fit without more memory.
///
/// All stanzas stand in one arena, each with the place of the next one of its queue. So a call costs what it touches,
/// however many stanzas other queues have.
#[derive(Drop)]
pub struct Pool {
    nodes: Slab<Node>,
    ends: HashMap<QueueId, Ends>,
    made: u64,
}

impl Model for Pool {
    ghost use Rattle.std.specs.Prelude.{◌-◌};
    ghost use Rattle.slab.specs.Slab.{slab_len};
    ghost use Rattle.sm_acks.specs.Queues.{PoolView};
    ghost use Rattle.sm_acks.specs.Arena.{IsArena, queues_in};

    ghost Value = { PoolView };

    ghost view = { λ p. record { queues = queues_in p.nodes.slots p.ends.entries; made = p.made; spare = p.nodes.capacity - slab_len p.nodes } };

    ghost invariant = { λ p. IsArena p.nodes p.ends p.made };
}

// The ends of a queue that lives.
fn ends_of(ends: &HashMap<QueueId, Ends>, queue: QueueId) -> Ends
    requires { IsSome (hash.get nat_eq ends.now queue) }
    ensures { hash.get nat_eq ends.now queue ≡ Some result }
{
    match ends.get(&queue) {
        Some(found) => *found,
        None => unreachable!(),
    }
}

// Writes the ends of a queue that lives.
fn set_ends(ends: &mut HashMap<QueueId, Ends>, queue: QueueId, new: Ends)
    requires { IsSome (hash.get nat_eq ends.old queue) }
    ensures queue { hash.get nat_eq ends.new queue ≡ Some new }
    ensures others { (other : ℕ) → other ≢ queue → hash.get nat_eq ends.new other ≡ hash.get nat_eq ends.old other }
    ensures held { IfSome (hash.get nat_eq ends.old queue) (λ old. held_in ends.new + old.len ≡ held_in ends.old + new.len) }
{
    match ends.get_mut(&queue) {
        Some(found) => *found = new,
        None => unreachable!(),
    }
}

#[tactic(auto, using(crate::proofs::Arenas::among_queues))]
impl Pool {
    /// A pool without queues. It takes no memory.
    pub fn new(alloc: Global) -> Pool
        ensures queues { (q : ℕ) → stanzas_of q result ≡ None }
        ensures made { result.made ≡ 0 }
    {
        Pool {
            nodes: Slab::new(alloc),
            ends: HashMap::new(alloc),
            made: 0,
        }
    }

    /// How many nodes the pool has: one for each stanza that waits, and one for each further stanza that fits without
    /// more memory.
    pub fn nodes(&self) -> u64
        ensures { result ≡ nodes_of self.now }
    {
        self.nodes.capacity() as u64
    }

    /// Makes an empty queue and answers its number, which no queue had before. A refusal leaves the queues as they
    /// were.
    pub fn make_queue(&mut self) -> Result<QueueId, NoMemory>
        requires { self.old.made + 1 < 2 ^ 64 }
        ensures number { IfOk result (λ q. q ≡ self.old.made + 1) }
        ensures fresh { IfOk result (λ q. stanzas_of q self.old ≡ None) }
        ensures queue { IfOk result (λ q. stanzas_of q self.new ≡ Some []) }
        ensures others { IfOk result (λ q. (other : ℕ) → other ≢ q → stanzas_of other self.new ≡ stanzas_of other self.old) }
        ensures made { OnOk result (self.new.made ≡ self.old.made + 1) }
        ensures unchanged { OnErr result ((q : ℕ) → stanzas_of q self.new ≡ stanzas_of q self.old) }
        ensures unmade { OnErr result (self.new.made ≡ self.old.made) }
        ensures kept { self.old.spare ≤ self.new.spare }
        ensures nodes { nodes_of self.new ≡ nodes_of self.old }
    {
        let queue = self.made + 1;
        self.ends.insert(queue, Ends::none())?;
        self.made = queue;
        Ok(queue)
    }

    /// Makes `spare` at least `n`, and never lowers it. The queues stay on each outcome.
    pub fn reserve(&mut self, n: u32) -> Result<(), NoMemory>
        ensures ok { OnOk result (n ≤ self.new.spare) }
        ensures queues { (q : ℕ) → stanzas_of q self.new ≡ stanzas_of q self.old }
        ensures made { self.new.made ≡ self.old.made }
        ensures kept { self.old.spare ≤ self.new.spare }
        ensures nodes { nodes_of self.old ≤ nodes_of self.new }
    {
        self.nodes.reserve(n as usize)?;
        Ok(())
    }

    /// Puts a stanza at the end of a queue. It takes no memory, moves the bytes, and lowers `spare` by at most 1.
    pub fn push_reserved(&mut self, queue: QueueId, bytes: Bytes)
        requires lives { Lives queue self.old }
        requires spare { 1 ≤ self.old.spare }
        ensures queue { stanzas_of queue self.new ≡ Some (list_of queue self.old ++ bytes.items ∷ []) }
        ensures others { (other : ℕ) → other ≢ queue → stanzas_of other self.new ≡ stanzas_of other self.old }
        ensures made { self.new.made ≡ self.old.made }
        ensures spare { self.old.spare ≤ self.new.spare + 1 }
        ensures nodes { nodes_of self.new ≡ nodes_of self.old }
    {
        let mut ends = ends_of(&self.ends, queue);
        let node = self.nodes.insert_reserved(Node { bytes, next: 0 });
        // That the length of a queue is a number: there are no more nodes.
        let _ = self.nodes.len();
        ends.join(&mut self.nodes, Ends::one(node));
        set_ends(&mut self.ends, queue, ends);
    }

    /// Takes the oldest stanza out of a queue. `None` where the queue is empty. It takes no memory, and a stanza that
    /// leaves makes room for one more.
    pub fn pop_front(&mut self, queue: QueueId) -> Option<Bytes>
        requires { Lives queue self.old }
        ensures front { IfSome result (λ b. list_of queue self.old ≡ b.items ∷ list_of queue self.new) }
        ensures none { IsNone result ↔ (list_of queue self.old ≡ []) }
        ensures empty { IfNone result (list_of queue self.new ≡ []) }
        ensures lives { Lives queue self.new }
        ensures others { (other : ℕ) → other ≢ queue → stanzas_of other self.new ≡ stanzas_of other self.old }
        ensures made { self.new.made ≡ self.old.made }
        ensures room { OnSome result (self.old.spare < self.new.spare) }
        ensures kept { self.old.spare ≤ self.new.spare }
        ensures nodes { nodes_of self.new ≡ nodes_of self.old }
    {
        let mut ends = ends_of(&self.ends, queue);
        if ends.len == 0 {
            return None;
        }
        let bytes = ends.take(&mut self.nodes);
        set_ends(&mut self.ends, queue, ends);
        Some(bytes)
    }

    /// Takes so many stanzas out of a queue, the oldest first, each of which makes room for one more. It takes no memory.
    pub fn drop_front(&mut self, queue: QueueId, n: u64)
        requires lives { Lives queue self.old }
        requires within { n ≤ length (list_of queue self.old) }
        ensures queue { stanzas_of queue self.new ≡ Some (drop n (list_of queue self.old)) }
        ensures others { (other : ℕ) → other ≢ queue → stanzas_of other self.new ≡ stanzas_of other self.old }
        ensures made { self.new.made ≡ self.old.made }
        ensures room { self.old.spare + n ≤ self.new.spare }
        ensures nodes { nodes_of self.new ≡ nodes_of self.old }
    {
        let mut ends = ends_of(&self.ends, queue);
        ends.drop_first(&mut self.nodes, n);
        set_ends(&mut self.ends, queue, ends);
    }

    /// How many stanzas wait in a queue.
    pub fn len(&self, queue: QueueId) -> u64
        requires { Lives queue self.now }
        ensures { result ≡ length (list_of queue self.now) }
    {
        ends_of(&self.ends, queue).len as u64
    }

    /// The stanza at a place in a queue, counted from 0, the oldest first. `None` where there is no such place. It goes
    /// through the stanzas before it.
    pub fn nth(&self, queue: QueueId, i: u64) -> Option<&Bytes>
        requires { Lives queue self.now }
        ensures stanza { IfSome result (λ b. slice_get (list_of queue self.now) i ≡ Some b.now.items) }
        ensures none { IsNone result ↔ (length (list_of queue self.now) ≤ i) }
    {
        let ends = ends_of(&self.ends, queue);
        if ends.len as u64 <= i {
            return None;
        }
        let at = ends.position(&self.nodes, i as usize);
        Some(bytes_of(&self.nodes, at))
    }

    /// Appends the bytes of all stanzas of a queue but the first `skip`, in order. It goes through the queue once to
    /// count and once to append. A refusal appends nothing.
    pub fn append_from(&self, queue: QueueId, skip: u64, out: &mut Bytes) -> Result<(), NoMemory>
        requires { Lives queue self.now }
        ensures ok { OnOk result (out.new.items ≡ out.old.items ++ concat (drop skip (list_of queue self.now))) }
        ensures err { OnErr result (out.new.items ≡ out.old.items) }
    {
        let ends = ends_of(&self.ends, queue);
        if ends.len as u64 <= skip {
            return Ok(());
        }
        let first = ends.position(&self.nodes, skip as usize);
        let count = ends.len - skip as usize;
        let len = bytes_len(&self.nodes, first, count);
        if len == usize::MAX {
            return Err(NoMemory);
        }
        out.reserve(len)?;
        append_bytes(&self.nodes, first, count, out);
        Ok(())
    }

    /// Copies of all stanzas of a queue but the first `skip`, in order. It goes through the queue once.
    pub fn stanzas_from(
        &self,
        alloc: Global,
        queue: QueueId,
        skip: u64,
    ) -> Result<ListOf<Bytes>, NoMemory>
        requires { Lives queue self.now }
        ensures { IfOk result (λ stanzas. stanzas_in stanzas.items ≡ drop skip (list_of queue self.now)) }
    {
        let mut stanzas = ListOf::new(alloc);
        let ends = ends_of(&self.ends, queue);
        if ends.len as u64 <= skip {
            return Ok(stanzas);
        }
        let first = ends.position(&self.nodes, skip as usize);
        let count = ends.len - skip as usize;
        stanzas.reserve(count)?;
        copy_stanzas(alloc, &self.nodes, first, count, &mut stanzas)?;
        Ok(stanzas)
    }

    /// Puts the stanzas of a queue behind those of another, in order, and leaves the first queue empty. It takes no
    /// memory, and no stanza moves: it costs the same however many there are.
    pub fn hand_over(&mut self, from: QueueId, to: QueueId)
        requires from { Lives from self.old }
        requires to { Lives to self.old }
        requires apart { from ≢ to }
        ensures from { stanzas_of from self.new ≡ Some [] }
        ensures to { stanzas_of to self.new ≡ Some (list_of to self.old ++ list_of from self.old) }
        ensures others { (other : ℕ) → other ≢ from → other ≢ to → stanzas_of other self.new ≡ stanzas_of other self.old }
        ensures made { self.new.made ≡ self.old.made }
        ensures kept { self.old.spare ≤ self.new.spare }
        ensures nodes { nodes_of self.new ≡ nodes_of self.old }
    {
        let moved = ends_of(&self.ends, from);
        let mut ends = ends_of(&self.ends, to);
        let _ = self.nodes.len();
        set_ends(&mut self.ends, from, Ends::none());
        ends.join(&mut self.nodes, moved);
        set_ends(&mut self.ends, to, ends);
    }

    /// Whether a queue with this number lives.
    pub fn lives(&self, queue: QueueId) -> bool
        ensures { IsTrue result ↔ Lives queue self.now }
    {
        self.ends.contains_key(&queue)
    }

    /// Drops a queue and the stanzas in it, each of which makes room for one more. Its number is never given again. It
    /// takes no memory.
    pub fn drop_queue(&mut self, queue: QueueId)
        requires { Lives queue self.old }
        ensures queue { stanzas_of queue self.new ≡ None }
        ensures others { (other : ℕ) → other ≢ queue → stanzas_of other self.new ≡ stanzas_of other self.old }
        ensures made { self.new.made ≡ self.old.made }
        ensures room { self.old.spare + length (list_of queue self.old) ≤ self.new.spare }
        ensures nodes { nodes_of self.new ≡ nodes_of self.old }
    {
        let count = self.len(queue);
        self.drop_front(queue, count);
        self.forget(queue);
    }

    // Drops a queue in which no stanza waits.
    fn forget(&mut self, queue: QueueId)
        requires { stanzas_of queue self.old ≡ Some [] }
        ensures queue { stanzas_of queue self.new ≡ None }
        ensures others { (other : ℕ) → other ≢ queue → stanzas_of other self.new ≡ stanzas_of other self.old }
        ensures made { self.new.made ≡ self.old.made }
        ensures spare { self.new.spare ≡ self.old.spare }
        ensures nodes { nodes_of self.new ≡ nodes_of self.old }
    {
        self.ends.remove(&queue);
    }
}
