//! The laws.
ghost use Rattle.std.specs.Prelude.{◌≡◌, ℕ, List, Ok};
ghost use Rattle.net_hub.specs.Served.{HasServed};
ghost use Rattle.law_hub.specs.Carried.{ArePutAgain, IsOutOf};
ghost use Rattle.cmd_journal.specs.Journals.{Says};
ghost use Rattle.cmd_journal.specs.Reading.{rerun_reading};
ghost use Rattle.net_traits.specs.Links.{LinkView};
ghost use Rattle.net_hub.specs.Records.{run_of_file};
ghost use Rattle.law_hub.specs.Again.{EndsAlike, IsRerunOf, rerun_input};

/// A law: the journal that `serve_together` answered, behind its accounts file and a line `%%`, is what a run is done again
/// from: these accounts, and exactly these events, and so it is read. What `rerun_bytes` answers of it ends with the archives
/// that the journal ends with, byte for byte.
pub fn journal_is_rerun()
    ensures says { (accounts : List ℕ) (n : ℕ) (told drawn : List ℕ) (old new : List LinkView) (journal : List ℕ) (served : HasServed accounts n told drawn old new journal)
        → Says (rerun_input accounts journal) (record { accounts = served.file; events = served.is.events }) }
    ensures read { (accounts : List ℕ) (n : ℕ) (told drawn : List ℕ) (old new : List LinkView) (journal : List ℕ) (served : HasServed accounts n told drawn old new journal)
        → rerun_reading (rerun_input accounts journal) ≡ Ok (record { accounts = served.file; events = served.is.events }) }
    ensures ends { (accounts : List ℕ) (n : ℕ) (told drawn : List ℕ) (old new : List LinkView) (journal again : List ℕ)
        → HasServed accounts n told drawn old new journal → IsRerunOf (rerun_input accounts journal) again → EndsAlike journal again }
{}

/// A law: what goes over the links is what the journal and `rerun_bytes` say. For each connection, `rerun_bytes` puts out what
/// the server put for it, and shuts it exactly where the server did. The pieces of the journal are the bytes that were read
/// from its link, and what is put out again are those that were written on it; where a write failed, it begins with those.
/// Each connection is gone in the journal, and nothing is put out for one that was not served.
pub fn rerun_puts_the_same()
    ensures puts { (accounts : List ℕ) (n : ℕ) (told drawn : List ℕ) (old new : List LinkView) (journal again : List ℕ) (served : HasServed accounts n told drawn old new journal)
        → IsRerunOf (rerun_input accounts journal) again → IsOutOf (run_of_file served.file served.is.events).outs again }
    ensures carried { (accounts : List ℕ) (n : ℕ) (told drawn : List ℕ) (old new : List LinkView) (journal again : List ℕ)
        → HasServed accounts n told drawn old new journal → IsRerunOf (rerun_input accounts journal) again → ArePutAgain n old new journal again }
{}
