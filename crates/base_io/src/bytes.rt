//! Bytes whose calls answer want of memory.
ghost use Rattle.std.specs.Prelude.{◌≡◌, ◌+◌, ◌≤◌, [], ◌∷◌, ◌++◌, length, IfOk, IsOk, OnOk, OnErr};

use crate::fault::NoMemory;
use std::alloc::Global;
use std::marker::Model;

/// Bytes that own their memory. Contracts see them as the list of the bytes and the number `spare` of
/// further bytes that fit without more memory.
#[derive(Drop)]
pub struct Bytes {
    bytes: Vec<u8>,
}

impl Model for Bytes {
    ghost use Rattle.std.specs.Prelude.{ℕ, ◌-◌, vec_len, vec_capacity};
    ghost use Rattle.base_io.specs.Listed.{Listed};

    ghost Value = { Listed ℕ };

    ghost view = { λ b. record { items = b.bytes.items; spare = vec_capacity b.bytes - vec_len b.bytes } };
}

impl Bytes {
    /// No bytes. It takes no memory.
    pub fn new(alloc: Global) -> Bytes
        ensures { result.items ≡ [] }
    {
        Bytes {
            bytes: Vec::new(alloc),
        }
    }

    /// A copy of bytes.
    pub fn from_slice(alloc: Global, bytes: &[u8]) -> Result<Bytes, NoMemory>
        ensures { IfOk result (λ b. b.items ≡ bytes.now) }
    {
        Ok(Bytes {
            bytes: Vec::from_slice(alloc, bytes)?,
        })
    }

    /// The bytes, without a copy.
    pub fn as_slice(&self) -> &[u8]
        ensures { result.now ≡ self.now.items }
    {
        self.bytes.as_slice()
    }

    /// Adds bytes at the end. A refusal leaves them as they were.
    pub fn append(&mut self, bytes: &[u8]) -> Result<(), NoMemory>
        ensures ok { OnOk result (self.new.items ≡ self.old.items ++ bytes.now) }
        ensures err { OnErr result (self.new.items ≡ self.old.items) }
        ensures room { length bytes.now ≤ self.old.spare → IsOk result }
    {
        self.bytes.extend_from_slice(bytes)?;
        Ok(())
    }

    /// Adds a byte at the end. A refusal leaves them as they were.
    pub fn push(&mut self, byte: u8) -> Result<(), NoMemory>
        ensures ok { OnOk result (self.new.items ≡ self.old.items ++ byte ∷ []) }
        ensures err { OnErr result (self.new.items ≡ self.old.items) }
        ensures room { 1 ≤ self.old.spare → IsOk result }
    {
        self.bytes.push(byte)?;
        Ok(())
    }

    /// Makes `spare` at least `n`, and never lowers it.
    pub fn reserve(&mut self, n: usize) -> Result<(), NoMemory>
        ensures ok { OnOk result (n ≤ self.new.spare) }
        ensures items { self.new.items ≡ self.old.items }
        ensures kept { self.old.spare ≤ self.new.spare }
    {
        self.bytes.reserve(n)?;
        Ok(())
    }

    /// Adds a byte at the end and takes no memory. It lowers `spare` by at most 1.
    pub fn push_reserved(&mut self, byte: u8)
        requires { 1 ≤ self.old.spare }
        ensures items { self.new.items ≡ self.old.items ++ byte ∷ [] }
        ensures spare { self.old.spare ≤ self.new.spare + 1 }
    {
        self.bytes.push_reserved(byte);
    }

    /// Adds bytes at the end and takes no memory. It lowers `spare` by at most their number.
    pub fn append_reserved(&mut self, bytes: &[u8])
        requires { length bytes.now ≤ self.old.spare }
        ensures items { self.new.items ≡ self.old.items ++ bytes.now }
        ensures spare { self.old.spare ≤ self.new.spare + length bytes.now }
    {
        match self.bytes.extend_from_slice(bytes) {
            Ok(()) => {}
            Err(_) => unreachable!(),
        }
    }
}

impl From<Vec<u8>> for Bytes {
    ghost use Rattle.std.specs.Prelude.{◌≡◌};

    ghost from_gives = { λ v b. b.items ≡ v.items };

    fn from(bytes: Vec<u8>) -> Bytes {
        Bytes { bytes }
    }
}
