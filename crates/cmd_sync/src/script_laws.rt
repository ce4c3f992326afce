//! A law of reading: what is read is in the grammar, and all of the grammar is read.
ghost use Rattle.std.specs.Prelude.{◌≡◌, ℕ, List, Ok};
ghost use Rattle.cmd_sync.specs.ScriptReading.{script_reading};
ghost use Rattle.cmd_sync.specs.Scripts.{Says, ScriptView};

/// What reading answers is what the text says, and what a text says is read.
pub fn reading_is_the_grammar()
    ensures found { (text : List ℕ) (script : ScriptView) → script_reading text ≡ Ok script → Says text script }
    ensures only { (text : List ℕ) (script : ScriptView) → Says text script → script_reading text ≡ Ok script }
{}
