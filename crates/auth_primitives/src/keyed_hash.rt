//! HMAC-SHA-256 under a key that is kept (RFC 2104), and `Hi` (RFC 5802, section 2.2).
ghost use Rattle.std.specs.Prelude.{◌≡◌, ℕ, ◌≤◌, ◌-◌, List, ◌∷◌, [], ◌++◌, length, map, replicate, bit_xor, nat_lt, if◌then◌else◌};
ghost use Rattle.sha2.specs.Hashers.{Holds256};
ghost use Rattle.sha2.specs.Sha256.{sha256};
ghost use Rattle.auth_primitives.specs.Hashes.{auth_message, hi_of, hmac_of, key_block, masked, xor_bytes};
ghost use Rattle.auth_primitives.specs.Keyed.{IsKeyedBy};

use sha2::{Digest, Sha256};

// The length of a block of SHA-256, in bytes.
const BLOCK: usize = 64;

// The bytes that mask a key's block for the inner and the outer hash (RFC 2104, section 2: ipad and opad).
const INNER: u8 = 0x36;

const OUTER: u8 = 0x5c;

/// A key of HMAC, as the two hashers that have absorbed its block under the two masks. It is made once, so that
/// each HMAC of a short text under the key costs two compressions.
#[derive(Drop)]
pub struct KeyedHash {
    inner: Sha256,
    outer: Sha256,
}

// The bytes of a block, each with `mask` xor-ed to it.
fn masked(block: &[u8; 64], mask: u8) -> [u8; 64]
    ensures { result ≡ masked mask block.now }
{
    let mut out = [0u8; BLOCK];
    for i in 0..BLOCK {
        out[i] = block[i] ^ mask;
    }
    out
}

// A text of at most 64 bytes with zeros behind it.
fn filled(text: &[u8]) -> [u8; 64]
    requires { length text.now ≤ 64 }
    ensures { result ≡ text.now ++ replicate (64 - length text.now) 0 }
{
    let mut block = [0u8; BLOCK];
    for (i, byte) in text.iter().enumerate() {
        block[i] = *byte;
    }
    block
}

// A key in a block, hashed first where it is longer than a block.
fn key_block(key: &[u8]) -> [u8; 64]
    ensures { result ≡ key_block key.now }
{
    if key.len() > BLOCK {
        filled(&Sha256::digest(key))
    } else {
        filled(key)
    }
}

// The hasher that has absorbed a block.
fn absorbed(block: &[u8; 64]) -> Sha256
    ensures { Holds256 result block.now }
{
    Sha256::new_with_prefix(block)
}

impl KeyedHash {
    /// A key. It takes no memory.
    pub fn new(key: &[u8]) -> KeyedHash
        ensures { IsKeyedBy result key.now }
    {
        let block = key_block(key);
        KeyedHash {
            inner: absorbed(&masked(&block, INNER)),
            outer: absorbed(&masked(&block, OUTER)),
        }
    }

    // The hasher to which the text is given.
    fn begun(&self) -> Sha256
        ensures { (key : List ℕ) → IsKeyedBy self.now key → Holds256 result (masked 0x36 (key_block key)) }
    {
        copied(&self.inner)
    }

    // The HMAC of the text that a hasher begun here was given.
    fn ended(&self, inner: Sha256) -> [u8; 32]
        ensures { (key text : List ℕ) → IsKeyedBy self.now key → Holds256 inner (masked 0x36 (key_block key) ++ text)
            → result ≡ hmac_of key text }
    {
        let digest = inner.finalize();
        let mut outer = copied(&self.outer);
        outer.update(&digest);
        outer.finalize()
    }

    /// The HMAC of a text.
    pub fn of(&self, text: &[u8]) -> [u8; 32]
        ensures { (key : List ℕ) → IsKeyedBy self.now key → result ≡ hmac_of key text.now }
    {
        let mut inner = self.begun();
        inner.update(text);
        self.ended(inner)
    }

    // The HMAC of two texts joined.
    fn of_two(&self, first: &[u8], second: &[u8]) -> [u8; 32]
        ensures { (key : List ℕ) → IsKeyedBy self.now key → result ≡ hmac_of key (first.now ++ second.now) }
    {
        let mut inner = self.begun();
        inner.update(first);
        inner.update(second);
        self.ended(inner)
    }

    /// The HMAC of the three messages that make up AuthMessage (RFC 5802, section 3), which is not put together in
    /// memory.
    pub fn of_messages(&self, bare: &[u8], server_first: &[u8], without_proof: &[u8]) -> [u8; 32]
        ensures { (key : List ℕ) → IsKeyedBy self.now key
            → result ≡ hmac_of key (auth_message bare.now server_first.now without_proof.now) }
    {
        let mut inner = self.begun();
        inner.update(bare);
        inner.update(b",");
        inner.update(server_first);
        inner.update(b",");
        inner.update(without_proof);
        self.ended(inner)
    }
}

// A hasher in the same state.
fn copied(hasher: &Sha256) -> Sha256
    ensures { result ≡ hasher.now }
{
    match hasher.clone() {
        Ok(copy) => copy,
        Err(_) => unreachable!(),
    }
}

/// The exclusive or of two texts of 32 bytes.
pub fn xor(a: &[u8; 32], b: &[u8; 32]) -> [u8; 32]
    ensures { result ≡ xor_bytes a.now b.now }
{
    let mut out = [0u8; 32];
    for i in 0..32 {
        out[i] = a[i] ^ b[i];
    }
    out
}

/// The SHA-256 of a text.
pub fn digest(text: &[u8]) -> [u8; 32]
    ensures { result ≡ sha256 text.now }
{
    Sha256::digest(text)
}

/// HMAC-SHA-256 of a text under a key (RFC 2104). It takes no memory.
pub fn hmac(key: &[u8], text: &[u8]) -> [u8; 32]
    ensures { result ≡ hmac_of key.now text.now }
{
    KeyedHash::new(key).of(text)
}

/// `Hi` of RFC 5802, section 2.2, which is PBKDF2 with HMAC-SHA-256 and one block of output: the password and the
/// salt stretched over `i` iterations. Each iteration costs two compressions of SHA-256. It takes no memory.
pub fn hi(password: &[u8], salt: &[u8], i: u32) -> [u8; 32]
    requires { 1 ≤ i }
    ensures { result ≡ hi_of password.now salt.now i }
{
    let keyed = KeyedHash::new(password);
    let mut u = keyed.of_two(salt, &[0, 0, 0, 1]);
    let mut all = u;
    'rounds: for k in 0..i - 1 {
        u = keyed.of(&u);
        all = xor(&all, &u);
    }
    all
}
