//! The names that are declared above a line.
ghost use Rattle.std.specs.Prelude.{◌≡◌, true, false, [], ◌∷◌, ◌++◌, length, IfOk, OnErr};
ghost use Rattle.base_io.specs.Names.{is_among};
ghost use Rattle.cmd_schedule.specs.Gives.{Gives};
ghost use Rattle.cmd_schedule.specs.Reading.{wants};
ghost use Rattle.cmd_schedule.specs.declared.fault.LineWhy.TheVariants.{Unknown};

use crate::fault::{LineFault, LineWhy};
use base_io::{Copied, NameIndex, Names, NoMemory, Text};
use std::alloc::Global;
use std::marker::Model;

/// Names, none of them twice, each with its text, which the lines that name it share.
#[derive(Drop)]
pub struct DeclaredNames {
    index: NameIndex,
    texts: Names,
}

impl Model for DeclaredNames {
    ghost use Rattle.std.specs.Prelude.{◌≡◌, ℕ, List};

    ghost Value = { List (List ℕ) };

    ghost view = { λ s. s.index };

    ghost invariant = { λ s. s.texts.items ≡ s.index };
}

impl DeclaredNames {
    /// No names. It takes no memory.
    pub fn new(alloc: Global) -> DeclaredNames
        ensures { result ≡ [] }
    {
        DeclaredNames {
            index: NameIndex::new(alloc),
            texts: Names::new(alloc),
        }
    }

    /// Adds a name behind the others, and answers a text of it. A refusal leaves them as they were.
    pub fn add(&mut self, alloc: Global, name: &str) -> Result<Text, NoMemory>
        requires { is_among name.now self.old ≡ false }
        ensures ok { IfOk result (λ text. (text ≡ name.now) × (self.new ≡ self.old ++ name.now ∷ [])) }
        ensures err { OnErr result (self.new ≡ self.old) }
    {
        let text = Text::from_str(alloc, name)?.shared()?;
        let kept = text.copied(alloc)?;
        self.texts.reserve(1)?;
        self.index.add(alloc, name)?;
        self.texts.push_reserved(kept);
        Ok(text)
    }

    /// The text of a name that was added.
    pub fn known(&self, name: &str) -> Result<&Text, LineFault>
        ensures exact { Gives (λ _. true) result (wants (is_among name.now self.now) Unknown) }
        ensures same { IfOk result (λ text. text.now ≡ name.now) }
    {
        match self.index.find(name) {
            Some(position) => Ok(&self.texts.as_slice()[position]),
            None => Err(LineFault::Reason(LineWhy::Unknown)),
        }
    }

    /// A text of a name. Where the name was added they share its characters.
    pub fn text_of(&self, alloc: Global, name: &str) -> Result<Text, NoMemory>
        ensures { IfOk result (λ text. text ≡ name.now) }
    {
        match self.index.find(name) {
            Some(position) => self.texts.as_slice()[position].copied(alloc),
            None => Text::from_str(alloc, name),
        }
    }

    /// Whether a name was added.
    pub fn contains(&self, name: &str) -> bool
        ensures { result ≡ is_among name.now self.now }
    {
        self.index.contains(name)
    }

    /// How many names there are.
    pub fn len(&self) -> usize
        ensures { result ≡ length self.now }
    {
        self.index.len()
    }
}
