//! A framer, and the small changes of its state.
//!
//! A framer keeps the token in hand, the text after the last tag, and the open elements, the innermost beside the
//! stack. Each private method has one equation as its contract: the machine's own definition for it.
//!
//! A framer's definitions are a machine. What decides a fault or an item is stated on whole tokens; only the
//! characters of texts go one by one. What the bytes so far say is four functions (`Readings.antt`): the items, the
//! fault, the offset of what is unfinished, and what a piece adds. Users cite these and not the machine.
//!
//! Want of memory spends a framer. A spent one stands for no bytes.
ghost use Rattle.std.specs.Prelude.{◌≡◌, ◌≤◌, [], Some, None, OnOk};
ghost use Rattle.std.specs.Option.{is_some};
ghost use Rattle.xml_framer.specs.Machine.{passed};
ghost use Rattle.xml_framer.specs.Readings.{Stands};
ghost use Rattle.xml_framer.specs.States;
ghost use Rattle.xml_tokens.specs.Utf8.{continues};
ghost use Rattle.xml_framer.specs.declared.limits.TheConstants.{MOST_DEPTH};
ghost use Rattle.xml_framer.specs.States.{counted, fails, from_start, gathered, gathered_in, item_begun, item_ended, token_begun, token_ended, token_fails};

use crate::fault::{Fault, Why};
use crate::limits::Limits;
use crate::states::{Lexical, Mode, Phase, Positions};
use base_io::{NoMemory, Text};
use std::alloc::Global;
use std::marker::Model;
use xml_names::Scopes;
use xml_open::OpenElements;
use xml_tokens::PartialCharacter;

// The most bytes of room that are kept from one token to the next. Tags of chat are far shorter. A longer one takes its
// room anew, and an idle stream doesn't hold it.
const KEPT_ROOM: usize = 4_096;

/// A stream parser: from bytes in whatever pieces to headers, elements and footers, or the first fault with its place
/// (RFC 6120, sections 4 and 11; XML 1.0; Namespaces in XML 1.0). Contracts see it as the state of a machine that takes a
/// byte at a time.
#[derive(Drop)]
pub struct Framer {
    pub(crate) alloc: Global,
    pub(crate) limits: Limits,
    pub(crate) positions: Positions,
    pub(crate) lexical: Lexical,
    pub(crate) token: Vec<u8>,
    pub(crate) pending: PartialCharacter,
    pub(crate) chars: String,
    pub(crate) opens: OpenElements,
    pub(crate) scopes: Scopes,
    pub(crate) name: Text,
    pub(crate) fault: Option<Fault>,
}

impl Model for Framer {
    ghost use Rattle.xml_framer.specs.States.{State};
    ghost use Rattle.xml_framer.specs.StateCodes.{state_coded};

    ghost Value = { State };

    ghost coded = { state_coded };

    ghost use Rattle.xml_framer.specs.FramerView.{state_of};

    ghost view = { state_of };
}

impl Framer {
    /// A framer before the first byte of a stream. It takes no memory.
    ///
    /// Its limits bound how deep a tree is that it gives, and so the stack that the tree's drop takes.
    #[tactic(auto, unfolding(crate::specs::Readings::framed))]
    pub fn new(alloc: Global, limits: Limits) -> Framer
        requires bytes { 1 ≤ limits.bytes }
        requires depth { limits.depth ≤ MOST_DEPTH }
        ensures machine { result ≡ from_start limits }
        ensures starts { Stands result limits [] }
    {
        Framer {
            alloc,
            limits,
            positions: Positions {
                at: 0,
                item_at: 0,
                token_at: 0,
                used: 0,
            },
            lexical: Lexical {
                phase: Phase::First,
                mode: Mode::Text,
                quote: None,
                in_run: false,
                returned: false,
                brackets: 0,
                spoiled: false,
                spent: false,
            },
            token: Vec::new(alloc),
            pending: PartialCharacter::new(),
            chars: String::new(alloc),
            opens: OpenElements::new(alloc),
            scopes: Scopes::new(alloc),
            name: Text::new(alloc),
            fault: None,
        }
    }

    /// Gives back the room of what is empty: the token in hand, the text in hand and the stack of open elements. It takes
    /// no memory, and the framer goes on as before.
    ///
    /// A stream that may be idle for long holds little more than what is unfinished then. The next token takes its room
    /// anew.
    pub fn slim(&mut self)
        ensures { self.new ≡ self.old }
    {
        if self.token.is_empty() {
            self.token = Vec::new(self.alloc);
        }
        if self.chars.as_str().is_empty() {
            self.chars = String::new(self.alloc);
        }
        self.opens.slim(self.alloc);
    }

    // The stream has a fault.
    pub(crate) fn fail(&mut self, at: u64, why: Why)
        ensures { self.new ≡ fails self.old at why }
    {
        self.fault = Some(Fault { at, why });
    }

    // The token in hand has a fault.
    pub(crate) fn fail_token(&mut self, why: Why)
        ensures { self.new ≡ token_fails self.old why }
    {
        self.fault = Some(Fault {
            at: self.positions.token_at,
            why,
        });
    }

    // Counts a byte where what it belongs to is counted.
    pub(crate) fn count(&mut self)
        ensures { self.new ≡ counted self.old }
    {
        if self.positions.used != 0 {
            self.positions.used = self.positions.used.saturating_add(1);
        }
    }

    // Whether a byte can continue the character in hand, or begin one. Most are of ASCII where none is in hand.
    #[tactic(auto, using(crate::proofs::Alone::goes_on_alone))]
    pub(crate) fn continues(&self, b: u8) -> bool
        ensures { result ≡ continues self.now.pending b }
    {
        b < 128 && self.pending.len() == 0 || self.pending.continues(b)
    }

    // The stream goes on after a byte. One that can't continue the character in hand was refused before (`go_on`), and
    // `held_after` says what is held after any other: so there is no answer of `take` to heed. A byte of ASCII where no
    // character is in hand leaves none.
    #[tactic(auto, using(crate::proofs::Alone::held_alone))]
    pub(crate) fn pass(&mut self, b: u8)
        ensures { self.new ≡ passed self.old b }
    {
        self.positions.at = self.positions.at.saturating_add(1);
        if b < 128 && self.pending.len() == 0 {
            return;
        }
        match self.pending.take(b) {
            Ok(()) => {}
            Err(_) => {}
        }
    }

    // A token ends, and nothing is in hand.
    pub(crate) fn end_token(&mut self)
        ensures { self.new ≡ token_ended self.old }
    {
        if self.token.capacity() <= KEPT_ROOM {
            self.token.clear();
        } else {
            self.token = Vec::new(self.alloc);
        }
        self.lexical.mode = Mode::Text;
        self.lexical.quote = None;
        self.lexical.in_run = false;
        self.lexical.spoiled = false;
    }

    // What stands between top-level elements ends.
    pub(crate) fn end_item(&mut self)
        ensures { self.new ≡ item_ended self.old }
    {
        self.end_token();
        self.positions.used = 0;
    }

    // A run of text begins, unless one has.
    pub(crate) fn begin_run(&mut self)
        ensures { self.new ≡ States.in_run self.old }
    {
        if self.lexical.in_run {
            return;
        }
        self.positions.token_at = self.positions.at;
        self.lexical.in_run = true;
        self.lexical.returned = false;
        self.lexical.brackets = 0;
    }

    // A token begins with the next byte.
    pub(crate) fn begin_token(&mut self, mode: Mode)
        ensures { self.new ≡ token_begun self.old mode }
    {
        self.positions.token_at = self.positions.at;
        self.lexical.mode = mode;
        self.lexical.in_run = false;
        self.lexical.returned = false;
        self.lexical.brackets = 0;
    }

    // An element, header tag or declaration may begin with the next byte.
    pub(crate) fn begin_item(&mut self)
        ensures { self.new ≡ item_begun self.old }
    {
        if !self.opens.is_inside() {
            self.positions.item_at = self.positions.at;
            self.positions.used = 1;
        }
    }

    // A byte more in the token.
    pub(crate) fn gather(&mut self, b: u8) -> Result<(), NoMemory>
        ensures { OnOk result (self.new ≡ gathered self.old b) }
    {
        self.token.push(b)?;
        Ok(())
    }

    // A byte more in the token, which is of this kind.
    pub(crate) fn gather_in(&mut self, mode: Mode, b: u8) -> Result<(), NoMemory>
        ensures { OnOk result (self.new ≡ gathered_in self.old mode b) }
    {
        self.lexical.mode = mode;
        self.token.push(b)?;
        Ok(())
    }

    // Whether an element is open.
    pub(crate) fn is_inside(&self) -> bool
        ensures { result ≡ is_some self.now.here }
    {
        self.opens.is_inside()
    }

    // Whether a declaration may stand here.
    pub(crate) fn may_declare(&self) -> bool
        ensures { result ≡ States.may_declare self.now }
    {
        match self.lexical.phase {
            Phase::First | Phase::Between => !self.opens.is_inside(),
            Phase::FirstDeclared | Phase::Declared | Phase::Ended => false,
        }
    }
}
