//! A text that answers want of memory, and that can be shared.
//!
//! A text is owned or shared. `Text::shared` makes one whose copies take no memory, for what many values hold, as the
//! names of namespaces. A reference to a fixed text would burden each struct that holds a text with a lifetime.
//!
//! A text of up to 16 bytes stands in itself (`ArrayString`): most names, ids and namespaces are so short. A text
//! stays 32 bytes large.
ghost use Rattle.std.specs.Prelude.{◌≡◌, [], IfOk, string_bytes};
ghost use Rattle.base_io.specs.Texts.{bytes_of};

use crate::fault::NoMemory;
use crate::list::Copied;
use arrayvec::ArrayString;
use std::alloc::Global;
use std::fmt;
use std::marker::Model;
use std::rc::RcStr;

/// How a text holds its characters.
#[derive(Drop)]
enum Characters {
    /// They are few, and stand in the text itself.
    Short(ArrayString<16>),
    /// It alone has them.
    Owned(String),
    /// Copies of it have them too.
    Shared(RcStr),
}

/// Characters whose copies take no memory.
fn shared_characters(characters: String) -> Result<Characters, NoMemory>
    ensures { IfOk result (λ c. bytes_of c ≡ string_bytes characters) }
{
    match ArrayString::from(characters.as_str()) {
        Ok(short) => Ok(Characters::Short(short)),
        Err(_) => Ok(Characters::Shared(RcStr::from_string(characters)?)),
    }
}

/// A text. Contracts see it as the list of its bytes, which are UTF-8.
#[derive(Drop)]
pub struct Text {
    characters: Characters,
}

impl Model for Text {
    ghost use Rattle.std.specs.Prelude.{List, ℕ};
    ghost use Rattle.base_io.specs.Texts.{bytes_of};

    ghost Value = { List ℕ };

    ghost view = { λ t. bytes_of t.characters };
}

impl Text {
    /// The empty text. It takes no memory.
    pub fn new(alloc: Global) -> Text
        ensures { result ≡ [] }
    {
        Text {
            characters: Characters::Owned(String::new(alloc)),
        }
    }

    /// A copy of a text.
    pub fn from_str(alloc: Global, s: &str) -> Result<Text, NoMemory>
        ensures { IfOk result (λ t. t ≡ s.now) }
    {
        let characters = match ArrayString::from(s) {
            Ok(short) => Characters::Short(short),
            Err(_) => Characters::Owned(String::from_str(alloc, s)?),
        };
        Ok(Text { characters })
    }

    /// The same text, so held that its copies share its characters and take no memory for them. Few characters come to
    /// stand in the text itself, others are not copied. Where memory runs out the text is dropped.
    pub fn shared(self) -> Result<Text, NoMemory>
        ensures { IfOk result (λ t. t ≡ self) }
    {
        let characters = match self.characters {
            Characters::Owned(characters) => shared_characters(characters)?,
            characters => characters,
        };
        Ok(Text { characters })
    }

    /// The text, without a copy.
    pub fn as_str(&self) -> &str
        ensures { result.now ≡ self.now }
    {
        match &self.characters {
            Characters::Short(characters) => characters.as_str(),
            Characters::Owned(characters) => characters.as_str(),
            Characters::Shared(characters) => characters.as_str(),
        }
    }
}

impl From<String> for Text {
    ghost use Rattle.std.specs.Prelude.{◌≡◌, string_bytes};

    ghost from_gives = { λ s t. t ≡ string_bytes s };

    fn from(characters: String) -> Text {
        Text {
            characters: Characters::Owned(characters),
        }
    }
}

impl Copied for Text {
    fn copied(&self, alloc: Global) -> Result<Text, NoMemory> {
        match &self.characters {
            Characters::Short(characters) => Ok(Text {
                characters: Characters::Short(*characters),
            }),
            Characters::Owned(characters) => Text::from_str(alloc, characters.as_str()),
            Characters::Shared(characters) => Ok(Text {
                characters: Characters::Shared(characters.clone()?),
            }),
        }
    }
}

impl fmt::Display for Text {
    fn fmt<W: fmt::Write>(&self, f: &mut fmt::Formatter<W>) -> fmt::Result {
        f.write_str(self.as_str())
    }
}

impl fmt::Debug for Text {
    fn fmt<W: fmt::Write>(&self, f: &mut fmt::Formatter<W>) -> fmt::Result {
        let text = self.as_str();
        write!(f, "{text:?}")
    }
}
