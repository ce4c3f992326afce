//! A password, and what it was last stretched to (RFC 5802, section 3).
//!
//! A client stretches its password once for a salt and a count (RFC 5802, section 3, lets it keep the
//! SaltedPassword), and keeps the last. Contracts see a `Password` as its text, so no definition knows of it; that
//! what is kept is right is its invariant. An exchange has a copy, and hands what it learnt back when it replies. It
//! is kept in memory alone.
ghost use Rattle.std.specs.Prelude.{◌≡◌, ◌≤◌, IfOk};
ghost use Rattle.auth_primitives.specs.Hashes.{salted_password};

use auth_primitives::hi;
use base_io::{Bytes, Copied, NoMemory, Text};
use std::alloc::Global;
use std::marker::Model;

// The SaltedPassword of a password under a salt and a count of iterations.
#[derive(Drop)]
struct Stretched {
    salt: Bytes,
    count: u32,
    key: [u8; 32],
}

impl Stretched {
    // A copy of it.
    fn copied(&self, alloc: Global) -> Result<Stretched, NoMemory>
        ensures { IfOk result (λ s. (s.salt.items ≡ self.now.salt.items) × (s.count ≡ self.now.count) × (s.key ≡ self.now.key)) }
    {
        Ok(Stretched {
            salt: Bytes::from_slice(alloc, self.salt.as_slice())?,
            count: self.count,
            key: self.key,
        })
    }
}

/// A password, with what it was last stretched to. Contracts see it as the list of the bytes of its text.
///
/// A client may keep the SaltedPassword as long as salt and iteration count stay the same (RFC 5802, section 3), so that
/// it is stretched once for them and not at each login. Under another salt or another count it is stretched anew, and
/// only the last is kept.
#[derive(Drop)]
pub struct Password {
    text: Text,
    stretched: Option<Stretched>,
}

impl Model for Password {
    ghost use Rattle.std.specs.Prelude.{◌≡◌, List, ℕ, IfSome};
    ghost use Rattle.auth_primitives.specs.Hashes.{salted_password};

    ghost Value = { List ℕ };

    ghost view = { λ p. p.text };

    ghost invariant = { λ p. IfSome p.stretched (λ s. s.key ≡ salted_password p.text s.salt.items s.count) };
}

impl Password {
    /// The password of a text, which was never stretched.
    pub fn from_str(alloc: Global, text: &str) -> Result<Password, NoMemory>
        ensures { IfOk result (λ p. p ≡ text.now) }
    {
        Ok(Password {
            text: Text::from_str(alloc, text)?,
            stretched: None,
        })
    }

    /// Its text, without a copy.
    pub fn as_str(&self) -> &str
        ensures { result.now ≡ self.now }
    {
        self.text.as_str()
    }

    /// The SaltedPassword under a salt and a count of iterations. It is stretched only where it wasn't last stretched for
    /// the same salt and the same count. It takes no memory.
    pub(crate) fn salted(&mut self, salt: Bytes, count: u32) -> [u8; 32]
        requires { 1 ≤ count }
        ensures salted { result ≡ salted_password self.old salt.items count }
        ensures same { self.new ≡ self.old }
    {
        match &self.stretched {
            Some(kept) if kept.count == count && kept.salt.as_slice() == salt.as_slice() =>
                kept.key,
            _ => {
                let key = hi(self.text.as_str().as_bytes(), salt.as_slice(), count);
                self.stretched = Some(Stretched { salt, count, key });
                key
            }
        }
    }

    /// Takes over what another was last stretched to, if it was, and both have the same text. It takes no memory.
    pub(crate) fn learn(&mut self, other: &mut Password)
        ensures own { self.new ≡ self.old }
        ensures other { other.new ≡ other.old }
    {
        if other.stretched.is_some() && other.text.as_str() == self.text.as_str() {
            self.stretched = other.stretched.take();
        }
    }
}

impl Copied for Password {
    fn copied(&self, alloc: Global) -> Result<Password, NoMemory> {
        let stretched = match &self.stretched {
            Some(stretched) => Some(stretched.copied(alloc)?),
            None => None,
        };
        Ok(Password {
            text: self.text.copied(alloc)?,
            stretched,
        })
    }
}
