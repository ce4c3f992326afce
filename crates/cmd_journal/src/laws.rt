//! Laws of reading: what is read is in the grammar, and all of the grammar is read.
ghost use Rattle.std.specs.Prelude.{◌≡◌, true, ℕ, List, Ok, Some, IsTrue};
ghost use Rattle.cmd_journal.specs.AccountsFiles.{AccountsView, IsAccountsFile, accounts_text};
ghost use Rattle.cmd_journal.specs.Journals.{EventView, InputView, Says, event_text, may_happen};
ghost use Rattle.cmd_journal.specs.LineReading.{read_event};
ghost use Rattle.cmd_journal.specs.Reading.{accounts_reading, rerun_reading};

/// What reading an accounts file answers is one whose text was read, and the text of each is read as that file.
pub fn accounts_reading_is_the_grammar()
    ensures found { (text : List ℕ) (file : AccountsView) → accounts_reading text ≡ Ok file → IsAccountsFile file × (text ≡ accounts_text file) }
    ensures only { (file : AccountsView) → IsAccountsFile file → accounts_reading (accounts_text file) ≡ Ok file }
{}

/// What reading the input of a rerun answers is what the text says, and what a text says is read.
pub fn rerun_reading_is_the_grammar()
    ensures found { (text : List ℕ) (input : InputView) → rerun_reading text ≡ Ok input → Says text input }
    ensures only { (text : List ℕ) (input : InputView) → Says text input → rerun_reading text ≡ Ok input }
{}

/// The line of an event that may follow is read as that event.
pub fn events_are_read_back()
    ensures { (last : ℕ) (event : EventView) → IsTrue (may_happen last event)
        → read_event last (record { bytes = event_text event; ended = true }) ≡ Ok (Some event) }
{}
