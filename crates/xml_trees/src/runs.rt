ghost use Rattle.std.specs.Prelude.{◌≡◌, ◌≢◌, [], ◌++◌, IfOk, MatchOption};
ghost use Rattle.xml_trees.specs.Runs.{HasNoEmptyText, run_text};

use base_io::{NoMemory, Text};
use std::alloc::Global;

/// Texts that are joined. One text alone stays as it was given.
#[derive(Drop)]
pub(crate) enum Run {
    Nothing,
    One(Text),
    Several(String),
}

impl Run {
    /// The run with a text behind it. It takes memory only where two texts are joined that aren't empty.
    pub(crate) fn joined_with(self, alloc: Global, text: Text) -> Result<Run, NoMemory>
        requires { HasNoEmptyText self }
        ensures text { IfOk result (λ run. run_text run ≡ run_text self ++ text) }
        ensures full { IfOk result HasNoEmptyText }
    {
        if text.as_str().is_empty() {
            return Ok(self);
        }
        match self {
            Run::Nothing => Ok(Run::One(text)),
            Run::One(first) => {
                let mut all = String::from_str(alloc, first.as_str())?;
                all.push_str(text.as_str())?;
                Ok(Run::Several(all))
            }
            Run::Several(mut all) => {
                all.push_str(text.as_str())?;
                Ok(Run::Several(all))
            }
        }
    }

    /// The joined text. `None` where nothing was joined that isn't empty.
    pub(crate) fn into_text(self) -> Option<Text>
        requires { HasNoEmptyText self }
        ensures { MatchOption result (run_text self ≡ []) (λ text. (text ≡ run_text self) × (text ≢ [])) }
    {
        match self {
            Run::Nothing => None,
            Run::One(text) => Some(text),
            Run::Several(all) => Some(Text::from(all)),
        }
    }
}
