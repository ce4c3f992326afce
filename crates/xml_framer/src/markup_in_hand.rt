//! A byte behind `<!` or `<?`.
ghost use Rattle.std.specs.Prelude.{◌≡◌, ◌<◌, length, codes, slice_index, OnOk};
ghost use Rattle.xml_framer.specs.MarkupSteps;
ghost use Rattle.xml_framer.specs.MarkupSteps.{declares, in_bang, in_declaration, in_phase, in_question, section_opened};

use crate::fault::Why;
use crate::framer::Framer;
use crate::states::{Mode, Phase};
use base_io::NoMemory;
use xml_tokens::{Declaration, is_white, read_declaration};

// What opens a CDATA section (XML 1.0, section 2.7).
const SECTION_OPENING: [u8; 9] = *b"<![CDATA[";

// What opens a declaration (XML 1.0, section 2.8).
const DECLARATION_OPENING: [u8; 5] = *b"<?xml";

// The byte at a place of the opening of a CDATA section.
fn section_byte(i: usize) -> u8
    ensures { result ≡ slice_index (codes "<![CDATA[") i }
{
    match SECTION_OPENING.get(i) {
        Some(b) => *b,
        None => 0,
    }
}

// The byte at a place of the opening of a declaration.
fn declaration_byte(i: usize) -> u8
    ensures { result ≡ slice_index (codes "<?xml") i }
{
    match DECLARATION_OPENING.get(i) {
        Some(b) => *b,
        None => 0,
    }
}

// Whether a token ends in `?`.
fn ends_in_question(token: &[u8]) -> bool
    ensures { result ≡ MarkupSteps.ends_in_question token.now }
{
    match token.last() {
        Some(b) => *b == b'?',
        None => false,
    }
}

// The phase behind a declaration.
fn declared_phase(phase: Phase) -> Phase
    ensures { result ≡ MarkupSteps.declared_phase phase }
{
    match phase {
        Phase::First | Phase::FirstDeclared => Phase::FirstDeclared,
        Phase::Between | Phase::Declared => Phase::Declared,
        Phase::Ended => Phase::Ended,
    }
}

impl Framer {
    pub(crate) fn set_phase(&mut self, phase: Phase)
        ensures { self.new ≡ in_phase self.old phase }
    {
        self.lexical.phase = phase;
    }

    // A CDATA section is open.
    fn open_section(&mut self)
        ensures { self.new ≡ section_opened self.old }
    {
        if self.opens.is_inside() {
            self.token.clear();
            self.lexical.mode = Mode::Section;
        } else {
            self.fail_token(Why::NotWellFormed);
        }
    }

    // A byte behind `<!`.
    #[tactic(auto, unfolding(crate::specs::MarkupSteps::in_bang))]
    pub(crate) fn in_bang(&mut self, b: u8) -> Result<(), NoMemory>
        ensures { OnOk result (self.new ≡ in_bang self.old b) }
    {
        let len = self.token.len();
        if b != section_byte(len) {
            self.fail_token(Why::Restricted);
        } else if len == 8 {
            self.open_section();
        } else {
            self.gather(b)?;
        }
        Ok(())
    }

    // A byte behind `<?`.
    #[tactic(auto, unfolding(crate::specs::MarkupSteps::in_question))]
    pub(crate) fn in_question(&mut self, b: u8) -> Result<(), NoMemory>
        ensures { OnOk result (self.new ≡ in_question self.old b) }
    {
        let len = self.token.len();
        if len < 5 && b == declaration_byte(len) {
            self.gather(b)?;
        } else if len >= 5 && is_white(b) {
            self.gather_in(Mode::Declaration, b)?;
        } else {
            self.fail_token(Why::Restricted);
        }
        Ok(())
    }

    // A declaration is whole.
    fn declare(&mut self, declaration: Declaration)
        ensures { self.new ≡ declares self.old declaration }
    {
        match declaration {
            Declaration::Good => {
                self.end_item();
                self.set_phase(declared_phase(self.lexical.phase));
            }
            Declaration::Encoding => self.fail_token(Why::Encoding),
            Declaration::NotWellFormed => self.fail_token(Why::NotWellFormed),
        }
    }

    // A byte of a declaration.
    #[tactic(auto, unfolding(crate::specs::MarkupSteps::in_declaration))]
    pub(crate) fn in_declaration(&mut self, b: u8) -> Result<(), NoMemory>
        ensures { OnOk result (self.new ≡ in_declaration self.old b) }
    {
        let ends = b == b'>' && ends_in_question(&self.token);
        self.gather(b)?;
        if ends {
            let declaration = read_declaration(&self.token);
            self.declare(declaration);
        }
        Ok(())
    }
}
