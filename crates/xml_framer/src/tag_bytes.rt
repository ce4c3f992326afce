//! The bytes of a tag, from the one behind its `<` to its `>` (XML 1.0, section 3.1).
ghost use Rattle.std.specs.Prelude.{◌≡◌, OnOk, OnErr};
ghost use Rattle.std.specs.Option.{is_some};
ghost use Rattle.xml_framer.specs.States.{turn};
ghost use Rattle.xml_framer.specs.TagSteps.{footer_closes, footer_gathered, in_footer, in_opening, in_tag, tag_closes, tag_gathered, unlimited};

use crate::fault::Why;
use crate::framer::Framer;
use crate::items::{Item, Items};
use crate::states::{Mode, Phase};
use base_io::NoMemory;
use xml_tokens::{is_quote, is_white, quote_behind};

impl Framer {
    // A tag is whole.
    #[tactic(auto, unfolding(crate::specs::TagSteps::tag_closes))]
    fn close_tag(&mut self, items: &mut Items) -> Result<(), NoMemory>
        ensures ok { OnOk result (turn self.new items.new.items ≡ tag_closes (turn self.old items.old.items)) }
        ensures err { OnErr result (items.new.items ≡ items.old.items) }
    {
        if self.is_inside() {
            self.tag_inside(items)?;
        } else {
            self.tag_outside(items)?;
        }
        Ok(())
    }

    fn gather_tag(&mut self, b: u8) -> Result<(), NoMemory>
        ensures { OnOk result (self.new ≡ tag_gathered self.old b) }
    {
        self.gather_in(Mode::Tag, b)?;
        self.lexical.quote = quote_behind(self.lexical.quote, b);
        Ok(())
    }

    // A byte of a tag.
    #[tactic(auto, unfolding(crate::specs::TagSteps::in_tag))]
    pub(crate) fn in_tag(&mut self, b: u8, items: &mut Items) -> Result<(), NoMemory>
        ensures ok { OnOk result (turn self.new items.new.items ≡ in_tag (turn self.old items.old.items) b) }
        ensures err { OnErr result (items.new.items ≡ items.old.items) }
    {
        if b == b'>' && self.lexical.quote.is_none() {
            self.gather(b)?;
            self.close_tag(items)?;
        } else {
            self.gather_tag(b)?;
        }
        Ok(())
    }

    fn gather_footer(&mut self, b: u8) -> Result<(), NoMemory>
        ensures { OnOk result (self.new ≡ footer_gathered self.old b) }
    {
        if self.lexical.quote.is_some() || is_quote(b) {
            self.lexical.quote = quote_behind(self.lexical.quote, b);
            self.lexical.spoiled = true;
        } else if self.token.len() < self.name.as_str().len() + 2 {
            self.gather(b)?;
        } else if !is_white(b) {
            self.lexical.spoiled = true;
        }
        Ok(())
    }

    #[tactic(auto, unfolding(crate::specs::TagSteps::footer_closes))]
    fn close_footer(&mut self, items: &mut Items) -> Result<(), NoMemory>
        ensures ok { OnOk result (turn self.new items.new.items ≡ footer_closes (turn self.old items.old.items)) }
        ensures err { OnErr result (items.new.items ≡ items.old.items) }
    {
        if self.ends_stream() {
            items.push(Item::Footer)?;
            self.end_item();
            self.set_phase(Phase::Ended);
        } else {
            self.fail_token(Why::NotWellFormed);
        }
        Ok(())
    }

    // A byte of an end tag outside elements.
    #[tactic(auto, unfolding(crate::specs::TagSteps::in_footer))]
    pub(crate) fn in_footer(&mut self, b: u8, items: &mut Items) -> Result<(), NoMemory>
        ensures ok { OnOk result (turn self.new items.new.items ≡ in_footer (turn self.old items.old.items) b) }
        ensures err { OnErr result (items.new.items ≡ items.old.items) }
    {
        if b == b'>' && self.lexical.quote.is_none() {
            self.gather(b)?;
            self.close_footer(items)?;
        } else {
            self.gather_footer(b)?;
        }
        Ok(())
    }

    // What begins has no limit outside elements.
    fn unlimit(&mut self)
        ensures { self.new ≡ unlimited self.old }
    {
        if !self.opens.is_inside() {
            self.positions.used = 0;
        }
    }

    // The byte behind `<`.
    #[tactic(auto, unfolding(crate::specs::TagSteps::in_opening))]
    pub(crate) fn in_opening(&mut self, b: u8, items: &mut Items) -> Result<(), NoMemory>
        ensures ok { OnOk result (turn self.new items.new.items ≡ in_opening (turn self.old items.old.items) b) }
        ensures err { OnErr result (items.new.items ≡ items.old.items) }
    {
        if b == b'!' {
            self.unlimit();
            self.gather_in(Mode::Bang, b)?;
        } else if b == b'?' && self.may_declare() {
            self.gather_in(Mode::Question, b)?;
        } else if b == b'?' {
            self.fail_token(Why::Restricted);
        } else if b == b'/' && !self.is_inside() {
            self.unlimit();
            self.gather_in(Mode::Footer, b)?;
        } else {
            self.in_tag(b, items)?;
        }
        Ok(())
    }
}
