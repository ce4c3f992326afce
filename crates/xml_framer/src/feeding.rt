//! A framer takes bytes.
ghost use Rattle.std.specs.Prelude.{◌≡◌, ◌<◌, ◌≤◌, ℕ, List, true, None, Some, Ok, Err, length, IfOk, IfErr, OnOk, OnErr, IsErrOf};
ghost use Rattle.xml_framer.specs.Machine;
ghost use Rattle.xml_framer.specs.Machine.{HasFault, IsFault, IsFrontOf, TakesFront, goes_on, part_of, run, step, taken};
ghost use Rattle.xml_framer.specs.Readings.{IsReadBy, Stands, part_at};
ghost use Rattle.xml_framer.specs.States;
ghost use Rattle.xml_framer.specs.States.{turn};
ghost use Rattle.xml_framer.specs.declared.limits.Limits.{Limits};

use crate::fault::{FeedFault, Why};
use crate::framer::Framer;
use crate::items::Items;
use crate::states::Mode;
use base_io::NoMemory;

impl Framer {
    // Whether the token in hand is a text.
    pub(crate) fn is_text(&self) -> bool
        ensures { result ≡ States.is_text self.now.lexical.mode }
    {
        match self.lexical.mode {
            Mode::Text => true,
            _ => false,
        }
    }

    // Whether the token in hand is a `<` alone.
    fn is_opening(&self) -> bool
        ensures { result ≡ States.is_opening self.now.lexical.mode }
    {
        match self.lexical.mode {
            Mode::Opening => true,
            _ => false,
        }
    }

    // Whether the byte behind `<` outside elements shows that what begins has no limit.
    fn shows_unlimited(&self, b: u8) -> bool
        ensures { result ≡ Machine.shows_unlimited self.now b }
    {
        self.is_opening()
            && !self.is_inside()
            && (b == b'/' || b == b'!' || b == b'?' && !self.may_declare())
    }

    // Whether a byte is one past the limit.
    #[tactic(auto, unfolding(crate::specs::Machine::is_too_long))]
    fn is_too_long(&self, b: u8) -> bool
        ensures { result ≡ Machine.is_too_long self.now b }
    {
        self.positions.used > 0
            && self.limits.bytes <= self.positions.used
            && !self.shows_unlimited(b)
    }

    // The place of the first byte of the token that a byte belongs to.
    fn token_position(&self) -> u64
        ensures { result ≡ States.token_position self.now }
    {
        if self.is_text() && !self.lexical.in_run {
            self.positions.at
        } else {
            self.positions.token_at
        }
    }

    // A byte goes to the token in hand, or begins one.
    #[tactic(auto, unfolding(crate::specs::Machine::taken))]
    fn take(&mut self, b: u8, items: &mut Items) -> Result<(), NoMemory>
        ensures ok { OnOk result (turn self.new items.new.items ≡ taken (turn self.old items.old.items) b) }
        ensures err { OnErr result (items.new.items ≡ items.old.items) }
    {
        match self.lexical.mode {
            Mode::Text => self.in_text(b)?,
            Mode::Reference => self.in_reference(b)?,
            Mode::Opening => self.in_opening(b, items)?,
            Mode::Bang => self.in_bang(b)?,
            Mode::Question => self.in_question(b)?,
            Mode::Declaration => self.in_declaration(b)?,
            Mode::Tag => self.in_tag(b, items)?,
            Mode::Footer => self.in_footer(b, items)?,
            Mode::Section => self.in_section(b)?,
        }
        Ok(())
    }

    // The next byte, where there is no fault.
    #[tactic(auto, unfolding(crate::specs::Machine::goes_on))]
    fn go_on(&mut self, b: u8, items: &mut Items) -> Result<(), NoMemory>
        ensures ok { OnOk result (turn self.new items.new.items ≡ goes_on (turn self.old items.old.items) b) }
        ensures err { OnErr result (items.new.items ≡ items.old.items) }
    {
        if self.is_too_long(b) {
            self.fail(self.positions.item_at, Why::TooLong);
            return Ok(());
        }
        if !self.continues(b) {
            self.fail(self.token_position(), Why::Encoding);
            return Ok(());
        }
        self.count();
        self.take(b, items)?;
        self.pass(b);
        Ok(())
    }

    // The next byte.
    fn step(&mut self, b: u8, items: &mut Items) -> Result<(), NoMemory>
        ensures ok { OnOk result (turn self.new items.new.items ≡ step (turn self.old items.old.items) b) }
        ensures err { OnErr result (items.new.items ≡ items.old.items) }
    {
        if self.fault.is_none() {
            self.go_on(b, items)?;
        }
        Ok(())
    }

    // Takes the first byte of a piece.
    fn take_first(&mut self, rest: &[u8], items: &mut Items) -> Result<(), NoMemory>
        requires { 0 < length rest.now }
        ensures ok { OnOk result (TakesFront (turn self.old items.old.items) (turn self.new items.new.items) rest.now 1) }
        ensures err { OnErr result (items.new.items ≡ items.old.items) }
    {
        self.step(rest[0], items)?;
        Ok(())
    }

    // Takes some first bytes of a piece, and answers how many.
    fn take_some(&mut self, rest: &[u8], items: &mut Items) -> Result<usize, NoMemory>
        requires { 0 < length rest.now }
        ensures ok { IfOk result (λ n. TakesFront (turn self.old items.old.items) (turn self.new items.new.items) rest.now n) }
        ensures err { OnErr result (items.new.items ≡ items.old.items) }
    {
        let taken = self.take_run(rest)?;
        if taken > 0 {
            return Ok(taken);
        }
        self.take_first(rest, items)?;
        Ok(1)
    }

    // Takes the bytes of a piece. Want of memory leaves items of the bytes before.
    fn take_all(&mut self, piece: &[u8], items: &mut Items) -> Result<(), NoMemory>
        ensures ok { OnOk result (turn self.new items.new.items ≡ run (turn self.old items.old.items) piece.now) }
        ensures kept { IsFrontOf items.old.items items.new.items }
        ensures due { IsFrontOf items.new.items (run (turn self.old items.old.items) piece.now).items }
    {
        let mut done = 0;
        while done < piece.len() {
            done += self.take_some(&piece[done..], items)?;
        }
        Ok(())
    }

    /// Takes the next piece of a stream, which may end anywhere, and adds the items whose last byte it has.
    ///
    /// `Fault` comes exactly where the bytes so far decide a fault: the first that the earliest such byte decides. The
    /// items of the bytes before it are added. Each later call answers that same fault, and adds nothing.
    ///
    /// After `NoMemory` the items that were added are the first of those due, and each later call answers `NoMemory` and
    /// adds nothing.
    ///
    /// So a framer stands for the bytes that it took since it was new, and how they were cut into pieces doesn't matter:
    /// what a piece adds are the items of all those bytes behind the items of the bytes before.
    pub fn feed(&mut self, piece: &[u8], items: &mut Items) -> Result<(), FeedFault>
        ensures ok { OnOk result ((turn self.new items.new.items ≡ run (turn self.old items.old.items) piece.now) × (self.new.fault ≡ None)) }
        ensures fault { IfErr result (λ e. HasFault e (turn self.old items.old.items) (turn self.new items.new.items) piece.now) }
        ensures memory { IsErrOf result FeedFault.NoMemory → self.new.lexical.spent ≡ true }
        ensures spent { self.old.lexical.spent ≡ true → (result ≡ Err FeedFault.NoMemory) × (items.new.items ≡ items.old.items) }
        ensures kept { IsFrontOf items.old.items items.new.items }
        ensures due { IsFrontOf items.new.items (run (turn self.old items.old.items) piece.now).items }
        ensures read { (limits : Limits) (bytes : List ℕ) → Stands self.old limits bytes → IsReadBy result limits bytes piece.now items.old.items self.new items.new.items }
    {
        if self.lexical.spent {
            return Err(FeedFault::NoMemory);
        }
        match self.take_all(piece, items) {
            Ok(()) => self.outcome(),
            Err(NoMemory) => {
                self.lexical.spent = true;
                Err(FeedFault::NoMemory)
            }
        }
    }

    // What a call that had memory answers.
    fn outcome(&self) -> Result<(), FeedFault>
        ensures ok { OnOk result (self.now.fault ≡ None) }
        ensures fault { IfErr result (λ e. IsFault e self.now.fault) }
    {
        match self.fault {
            Some(fault) => Err(FeedFault::Fault(fault)),
            None => Ok(()),
        }
    }

    /// Where what is unfinished begins: the first byte of the top-level element that has begun or, outside elements, of
    /// the declaration, tag, opening of a CDATA section or character. `None` where nothing is unfinished, and after a
    /// fault or want of memory.
    #[tactic(auto, unfolding(crate::specs::Machine::part_of))]
    pub fn part(&self) -> Option<u64>
        ensures machine { result ≡ part_of self.now }
        ensures at { (limits : Limits) (bytes : List ℕ) → Stands self.now limits bytes → result ≡ part_at limits bytes }
    {
        if self.fault.is_some() || self.lexical.spent {
            return None;
        }
        if self.is_inside() || !self.is_text() || self.pending.len() != 0 {
            Some(self.positions.item_at)
        } else {
            None
        }
    }
}
