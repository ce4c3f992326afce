//! One direction of a connection.
ghost use Rattle.std.specs.Prelude.{◌≡◌, ◌≤◌, length, take, true, IsOk, OnErr, OnOk};
ghost use Rattle.net_pipes.specs.Pipes;
ghost use Rattle.net_pipes.specs.Pipes.{closed, cut_to, empty_pipe, emptied, entered, handed, risen, with_end_reported};

use base_io::NoMemory;
use std::alloc::Global;
use std::marker::Model;

/// One direction of a connection: bytes that are under way, in order, and an end mark behind which nothing enters. It counts
/// the bytes that entered and those that were handed over; each count stays at 2^64 - 1 once there.
///
/// What is handed over leaves from the front at a cost that doesn't grow with what stays.
#[derive(Drop)]
pub struct Pipe {
    // Of these bytes the first `gone` were handed over.
    bytes: Vec<u8>,
    gone: usize,
    ended: bool,
    told: bool,
    put: u64,
    taken: u64,
}

impl Model for Pipe {
    ghost use Rattle.std.specs.Prelude.{◌≤◌, drop, length};
    ghost use Rattle.net_pipes.specs.Pipes as pipes;

    ghost Value = { pipes.Pipe };

    ghost view = { λ p. record { bytes = drop p.gone p.bytes.items; ended = p.ended; told = p.told; put = p.put; taken = p.taken } };

    ghost invariant = { λ p. p.gone ≤ length p.bytes.items };
}

// A count with so many more. It stays at the greatest number once there.
fn risen(count: u64, more: usize) -> u64
    ensures { result ≡ risen count more }
{
    count.saturating_add(more as u64)
}

impl Pipe {
    /// An empty pipe without an end mark. It takes no memory.
    pub fn new(alloc: Global) -> Pipe
        ensures { result ≡ empty_pipe }
    {
        Pipe {
            bytes: Vec::new(alloc),
            gone: 0,
            ended: false,
            told: false,
            put: 0,
            taken: 0,
        }
    }

    /// How many bytes are under way.
    pub fn len(&self) -> usize
        ensures { result ≡ length self.now.bytes }
    {
        self.bytes.len() - self.gone
    }

    /// Whether none is under way.
    pub fn is_empty(&self) -> bool
        ensures { result ≡ Pipes.is_empty self.now }
    {
        self.len() == 0
    }

    /// The first `n` bytes that are under way, without a copy.
    pub fn first(&self, n: usize) -> &[u8]
        requires { n ≤ length self.now.bytes }
        ensures { result.now ≡ take n self.now.bytes }
    {
        &self.bytes[self.gone..self.gone + n]
    }

    /// How many bytes entered.
    pub fn put(&self) -> u64
        ensures { result ≡ self.now.put }
    {
        self.put
    }

    /// How many bytes were handed over.
    pub fn taken(&self) -> u64
        ensures { result ≡ self.now.taken }
    {
        self.taken
    }

    /// Bytes are put at the end. Where the pipe has ended they are lost, and no memory is taken. A refusal leaves the pipe
    /// as it was.
    pub fn enter(&mut self, bytes: &[u8]) -> Result<(), NoMemory>
        ensures ok { OnOk result (self.new ≡ entered bytes.now self.old) }
        ensures err { OnErr result (self.new ≡ self.old) }
        ensures lost { self.old.ended ≡ true → IsOk result }
    {
        if self.ended {
            return Ok(());
        }
        self.bytes.extend_from_slice(bytes)?;
        self.put = risen(self.put, bytes.len());
        Ok(())
    }

    /// The first `n` bytes are handed over: they leave the pipe. It takes no memory.
    pub fn hand(&mut self, n: usize)
        requires { n ≤ length self.old.bytes }
        ensures { self.new ≡ handed n self.old }
    {
        self.gone += n;
        self.taken = risen(self.taken, n);
        if self.gone == self.bytes.len() {
            self.bytes.clear();
            self.gone = 0;
        }
    }

    /// The network cuts the pipe: of the bytes under way the first `n` stay, and the end mark stands behind them. It takes
    /// no memory.
    #[tactic(auto, using(crate::proofs::Cuts::cut_short))]
    pub fn cut(&mut self, n: usize)
        ensures { self.new ≡ cut_to n self.old }
    {
        let kept = n.min(self.len());
        self.bytes.truncate(self.gone + kept);
        self.ended = true;
    }

    /// The end mark is put behind the bytes. It takes no memory.
    pub fn close(&mut self)
        ensures { self.new ≡ closed self.old }
    {
        self.ended = true;
    }

    /// All bytes are lost, and the end mark is put. It takes no memory.
    pub fn empty(&mut self)
        ensures { self.new ≡ emptied self.old }
    {
        self.bytes.clear();
        self.gone = 0;
        self.ended = true;
    }

    /// Whether nothing is under way any more, nothing comes, and that was not told yet to who takes.
    pub fn is_end_due(&self) -> bool
        ensures { result ≡ Pipes.is_end_due self.now }
    {
        self.is_empty() && self.ended && !self.told
    }

    /// The end was told. It takes no memory.
    pub fn tell_end(&mut self)
        ensures { self.new ≡ with_end_reported self.old }
    {
        self.told = true;
    }
}
