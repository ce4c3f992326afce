//! A byte of a text, a CDATA section or a reference.
//!
//! A text of up to 512 bytes is copied out of the room that it was read into, and that room stays for the next one;
//! that of a longer one goes with it. A framer gives room back past 4,096 bytes at the end of a token, and all of it
//! by `slim`, which a server calls behind each piece. No clause says so.
ghost use Rattle.std.specs.Prelude.{◌≡◌, ◌++◌, string_bytes, OnOk, OnErr};
ghost use Rattle.xml_framer.specs.TextSteps;
ghost use Rattle.xml_framer.specs.TextSteps.{between, bracket_taken, character_begun, character_taken, in_reference, in_section, in_text, inside, judged_outside, judged_section, judged_text, kept_back, markup_begun, other_taken, refers, section_taken, text_inside, text_outside};

use crate::fault::Why;
use crate::framer::Framer;
use crate::states::Mode;
use base_io::NoMemory;
use xml_tokens::{Reference, is_white, reference_goes_on, referred};

// How many `]` a text ends in behind a byte, up to 2.
fn brackets_after(brackets: u8, b: u8) -> u8
    ensures { result ≡ TextSteps.brackets_after brackets b }
{
    if b == b']' {
        if brackets == 0 { 1 } else { 2 }
    } else {
        0
    }
}

// The `]` that were kept back.
fn push_kept_back(brackets: u8, chars: &mut String) -> Result<(), NoMemory>
    ensures { OnOk result (string_bytes chars.new ≡ string_bytes chars.old ++ kept_back brackets) }
{
    match brackets {
        0 => {}
        1 => chars.push_str("]")?,
        _ => chars.push_str("]]")?,
    }
    Ok(())
}

impl Framer {
    // A tag, a CDATA section, a declaration, or what is restricted begins.
    fn begin_markup(&mut self) -> Result<(), NoMemory>
        ensures { OnOk result (self.new ≡ markup_begun self.old) }
    {
        self.begin_token(Mode::Opening);
        self.begin_item();
        self.gather(b'<')?;
        Ok(())
    }

    // A character outside elements is judged.
    fn judge_outside(&mut self, b: u8)
        ensures { self.new ≡ judged_outside self.old b }
    {
        if !is_white(b) {
            self.fail_token(Why::NotWellFormed);
        }
    }

    // The first byte of a character outside elements is the place of what is unfinished.
    fn begin_character(&mut self)
        ensures { self.new ≡ character_begun self.old }
    {
        if self.pending.len() == 0 {
            self.positions.item_at = self.positions.at;
        }
    }

    #[tactic(auto, unfolding(crate::specs::TextSteps::text_outside))]
    fn text_outside(&mut self, b: u8)
        ensures { self.new ≡ text_outside self.old b }
    {
        let ends = self.pending.ends(b);
        self.begin_run();
        if ends {
            self.judge_outside(b);
        } else {
            self.begin_character();
        }
    }

    // A byte outside elements.
    #[tactic(auto, unfolding(crate::specs::TextSteps::between))]
    fn between(&mut self, b: u8) -> Result<(), NoMemory>
        ensures { OnOk result (self.new ≡ between self.old b) }
    {
        match b {
            b'<' => self.begin_markup()?,
            b'&' => self.fail(self.positions.at, Why::NotWellFormed),
            _ => self.text_outside(b),
        }
        Ok(())
    }

    // Adds what a character says to the text.
    fn say(&mut self, b: u8) -> Result<(), NoMemory>
        ensures { OnOk result (self.new ≡ record self.old { chars = self.old.chars ++ TextSteps.said self.old b }) }
    {
        if self.lexical.returned && b == b'\n' {
            return Ok(());
        }
        if b == b'\r' {
            self.chars.push('\n')?;
        } else {
            self.pending.append_ended(b, &mut self.chars)?;
        }
        Ok(())
    }

    // Takes a character of a text.
    fn take_character(&mut self, b: u8) -> Result<(), NoMemory>
        ensures { OnOk result (self.new ≡ character_taken self.old b) }
    {
        self.say(b)?;
        self.lexical.returned = b == b'\r';
        self.lexical.brackets = brackets_after(self.lexical.brackets, b);
        Ok(())
    }

    fn is_forbidden(&self, b: u8) -> bool
        ensures { result ≡ TextSteps.is_forbidden self.now b }
    {
        self.pending.ends_forbidden(b)
    }

    // Whether a byte ends `]]>`.
    fn ends_section(&self, b: u8) -> bool
        ensures { result ≡ TextSteps.ends_section self.now b }
    {
        self.lexical.brackets == 2 && b == b'>'
    }

    // A character of a text is judged and taken.
    fn judge_text(&mut self, b: u8) -> Result<(), NoMemory>
        ensures { OnOk result (self.new ≡ judged_text self.old b) }
    {
        if self.is_forbidden(b) || self.ends_section(b) {
            self.fail_token(Why::NotWellFormed);
            return Ok(());
        }
        self.take_character(b)?;
        Ok(())
    }

    #[tactic(auto, unfolding(crate::specs::TextSteps::text_inside))]
    fn text_inside(&mut self, b: u8) -> Result<(), NoMemory>
        ensures { OnOk result (self.new ≡ text_inside self.old b) }
    {
        let ends = self.pending.ends(b);
        self.begin_run();
        if ends {
            self.judge_text(b)?;
        }
        Ok(())
    }

    // A byte of an element outside its tags.
    #[tactic(auto, unfolding(crate::specs::TextSteps::inside))]
    fn inside(&mut self, b: u8) -> Result<(), NoMemory>
        ensures { OnOk result (self.new ≡ inside self.old b) }
    {
        match b {
            b'<' => self.begin_markup()?,
            b'&' => self.begin_token(Mode::Reference),
            _ => self.text_inside(b)?,
        }
        Ok(())
    }

    // A byte where no token but a text is in hand.
    #[tactic(auto, unfolding(crate::specs::TextSteps::in_text))]
    pub(crate) fn in_text(&mut self, b: u8) -> Result<(), NoMemory>
        ensures { OnOk result (self.new ≡ in_text self.old b) }
    {
        if self.is_inside() {
            self.inside(b)?;
        } else {
            self.between(b)?;
        }
        Ok(())
    }

    // Takes a `]` of a CDATA section.
    fn take_bracket(&mut self) -> Result<(), NoMemory>
        ensures { OnOk result (self.new ≡ bracket_taken self.old) }
    {
        if self.lexical.brackets == 2 {
            self.chars.push_str("]")?;
        } else {
            self.lexical.brackets = brackets_after(self.lexical.brackets, b']');
        }
        self.lexical.returned = false;
        Ok(())
    }

    // Takes another character of a CDATA section.
    fn take_other(&mut self, b: u8) -> Result<(), NoMemory>
        ensures { OnOk result (self.new ≡ other_taken self.old b) }
    {
        push_kept_back(self.lexical.brackets, &mut self.chars)?;
        self.say(b)?;
        self.lexical.returned = b == b'\r';
        self.lexical.brackets = 0;
        Ok(())
    }

    fn take_in_section(&mut self, b: u8) -> Result<(), NoMemory>
        ensures { OnOk result (self.new ≡ section_taken self.old b) }
    {
        if b == b']' {
            self.take_bracket()?;
        } else {
            self.take_other(b)?;
        }
        Ok(())
    }

    // A character of a CDATA section is judged and taken.
    #[tactic(auto, unfolding(crate::specs::TextSteps::judged_section))]
    fn judge_section(&mut self, b: u8) -> Result<(), NoMemory>
        ensures { OnOk result (self.new ≡ judged_section self.old b) }
    {
        if self.is_forbidden(b) {
            self.fail_token(Why::NotWellFormed);
        } else if self.ends_section(b) {
            self.end_token();
        } else {
            self.take_in_section(b)?;
        }
        Ok(())
    }

    // A byte of a CDATA section.
    #[tactic(auto, unfolding(crate::specs::TextSteps::in_section))]
    pub(crate) fn in_section(&mut self, b: u8) -> Result<(), NoMemory>
        ensures { OnOk result (self.new ≡ in_section self.old b) }
    {
        if self.pending.ends(b) {
            self.judge_section(b)?;
        }
        Ok(())
    }

    // Takes what a reference stands for.
    fn refer(&mut self, reference: Reference) -> Result<(), NoMemory>
        ensures { OnOk result (self.new ≡ refers self.old reference) }
    {
        match reference {
            Reference::Character(c) => {
                self.chars.push(c)?;
                self.end_token();
            }
            Reference::Unknown => self.fail_token(Why::Restricted),
            Reference::Malformed => self.fail_token(Why::NotWellFormed),
        }
        Ok(())
    }

    // A byte of a reference.
    #[tactic(auto, unfolding(crate::specs::TextSteps::in_reference))]
    pub(crate) fn in_reference(&mut self, b: u8) -> Result<(), NoMemory>
        ensures { OnOk result (self.new ≡ in_reference self.old b) }
    {
        if b == b';' {
            let reference = referred(&self.token);
            self.refer(reference)?;
        } else if reference_goes_on(&self.token, b) {
            self.gather(b)?;
        } else {
            self.fail_token(Why::NotWellFormed);
        }
        Ok(())
    }
}
