//! A message as archives hold it.
ghost use Rattle.std.specs.Prelude.{◌≡◌};
ghost use Rattle.mam_archive.specs.Peers.{bare_form};

use crate::entry::ArchivedMessage;
use crate::peers::bare_form;
use std::marker::Model;

/// A message, and how many bytes of its addresses the bare forms take. They are looked for once.
#[derive(Drop)]
pub(crate) struct Kept {
    message: ArchivedMessage,
    from_bare: usize,
    to_bare: usize,
}

impl Model for Kept {
    ghost use Rattle.std.specs.Prelude.{◌≡◌, length};
    ghost use Rattle.mam_archive.specs.Peers.{bare_form};
    ghost use Rattle.mam_archive.specs.declared.entry.ArchivedMessage.{ArchivedMessage};

    ghost Value = { ArchivedMessage };

    ghost view = { λ k. k.message };

    ghost invariant = { λ k. (k.from_bare ≡ length (bare_form k.message.from)) × (k.to_bare ≡ length (bare_form k.message.to)) };
}

impl Kept {
    /// Looks where the bare forms end.
    pub(crate) fn new(message: ArchivedMessage) -> Kept
        ensures { result ≡ message }
    {
        let from_bare = bare_form(message.from.as_str()).len();
        let to_bare = bare_form(message.to.as_str()).len();
        Kept {
            message,
            from_bare,
            to_bare,
        }
    }

    /// The message.
    pub(crate) fn message(&self) -> &ArchivedMessage
        ensures { result.now ≡ self.now }
    {
        &self.message
    }

    /// The bare form of `from`.
    pub(crate) fn from_bare(&self) -> &str
        ensures { result.now ≡ bare_form self.now.from }
    {
        let text = self.message.from.as_str();
        &text[..self.from_bare]
    }

    /// The bare form of `to`.
    pub(crate) fn to_bare(&self) -> &str
        ensures { result.now ≡ bare_form self.now.to }
    {
        let text = self.message.to.as_str();
        &text[..self.to_bare]
    }
}
