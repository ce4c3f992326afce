//! A message in an archive (XEP-0313).
//!
//! An entry is a number and one block of memory (`Rc`), seen as the same record, so that a copy in another archive, a
//! page, a log or a report takes constant time. The block tells besides where the bare forms of the two addresses
//! end.
ghost use Rattle.std.specs.Prelude.{◌≡◌, IfOk};
ghost use Rattle.mam_archive.specs.Entries.{entry_with};
ghost use Rattle.mam_archive.specs.Peers.{peer_of};

use crate::kept::Kept;
use base_io::{Copied, ListOf, NoMemory, Text};
use std::alloc::Global;
use std::marker::Model;
use std::rc::Rc;

/// A body of a message, in a language (RFC 6121, section 5.2.3). Without a language `lang` is empty.
#[derive(Drop)]
pub struct Body {
    pub lang: Text,
    pub text: Text,
}

/// The bodies of a message, in order.
pub type Bodies = ListOf<Body>;

impl Copied for Body {
    fn copied(&self, alloc: Global) -> Result<Body, NoMemory> {
        Ok(Body {
            lang: self.lang.copied(alloc)?,
            text: self.text.copied(alloc)?,
        })
    }
}

/// What archives keep of a message, whatever number it has in each. `stamp` is in milliseconds since 1970, and `normal`
/// tells a message of type `normal` from one of type `chat`. Texts that are absent are empty.
#[derive(Drop)]
pub struct ArchivedMessage {
    pub stamp: u64,
    pub from: Text,
    pub to: Text,
    pub normal: bool,
    pub id: Text,
    pub origin: Text,
    pub bodies: Bodies,
}

/// A message in an archive, under its number, which counts from 1. Copies of an entry share the message: it is one block
/// of memory, in however many archives, pages and logs it stands.
#[derive(Drop)]
pub struct Entry {
    number: u64,
    message: Rc<Kept, Global>,
}

/// Entries, in order.
pub type Entries = ListOf<Entry>;

impl Model for Entry {
    ghost use Rattle.mam_archive.specs.Entries.{EntryView, entry_with};

    ghost Value = { EntryView };

    ghost view = { λ e. entry_with e.number e.message.value };
}

impl Entry {
    /// The entry of a message under a number. It takes one block of memory; where there is none, the message is dropped.
    pub fn new(alloc: Global, number: u64, message: ArchivedMessage) -> Result<Entry, NoMemory>
        ensures { IfOk result (λ e. e ≡ entry_with number message) }
    {
        Ok(Entry {
            number,
            message: Rc::new(alloc, Kept::new(message))?,
        })
    }

    /// Its number in its archive.
    pub fn number(&self) -> u64
        ensures { result ≡ self.now.number }
    {
        self.number
    }

    /// Gives it another number.
    pub(crate) fn renumber(&mut self, number: u64)
        ensures { self.new ≡ record self.old { number = number } }
    {
        self.number = number;
    }

    /// The message, without a copy.
    pub fn message(&self) -> &ArchivedMessage
        ensures { self.now ≡ entry_with self.now.number result.now }
    {
        self.message.as_ref().message()
    }

    /// The entry's peer in the archive of a bare address: the bare form of `to` where `from` has that bare address,
    /// else of `from`. It borrows.
    pub fn peer<'a>(&'a self, owner: &str) -> &'a str
        ensures { result.now ≡ peer_of owner.now self.now }
    {
        let kept = self.message.as_ref();
        let from = kept.from_bare();
        if from == owner { kept.to_bare() } else { from }
    }
}

impl Copied for Entry {
    fn copied(&self, _alloc: Global) -> Result<Entry, NoMemory> {
        Ok(Entry {
            number: self.number,
            message: self.message.clone()?,
        })
    }
}
