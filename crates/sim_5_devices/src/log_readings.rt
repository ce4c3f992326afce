//! Calls on a log beside the steps of a reading.
//!
//! A log is compared with a reading on stanzas that are built, so a history is asked to be plain. A client whose
//! session is full leaves where it should ask for the next page; the applications have no such event (`HasRoomFor`,
//! `full_clients_leave`).
ghost use Rattle.std.specs.Prelude.{◌≡◌, ℕ, ◌+◌, ◌<◌, ◌^◌, ◌==◌, ◌&&◌, ◌||◌, min, not, true, Bool, List, [], ◌∷◌, ◌++◌, None, Ok, Option, Some};
ghost use Rattle.std.specs.Option.{option_map_or};
ghost use Rattle.mam_archive.specs.Entries.{EntryView};
ghost use Rattle.mam_archive.specs.Ids.{id_of};
ghost use Rattle.cmd_direct.specs.Direct.{as_logged};
ghost use Rattle.mam_log.specs.LogCalls.{after_hold, with_restart};
ghost use Rattle.mam_log.specs.Views.{LogView, after_fin, end_of, outcome_of, with_begun, with_result, without_page};
ghost use Rattle.mam_log.specs.declared.log_entry.LogEntry.{LogEntry};
ghost use Rattle.sim_5_devices.specs.Shown.{AreGiven, IsFinOf, IsGiven, IsReadingGiven, LogRepresents, page_shown, queryid_of};
ghost use Rattle.mam_pages.specs.declared.fin.Fin.{Fin};
ghost use Rattle.sim_1_applications.specs.Answers.{last_in};
ghost use Rattle.sim_1_applications.specs.Devices.{OpenPage, Reading, log_of};
ghost use Rattle.sim_1_applications.specs.Events.{Around, are_new, asking, hold, is_empty, over, same_position};

/// A law: each call on a log is a step of the reading that it shows. A result comes to the open page, a page begins behind
/// the log's last entry, or anew from the archive's first one, the open page is given up, and a message that came live is
/// held, each exactly where the reading does so.
pub fn calls_on_logs_are_steps_of_readings()
    ensures result { (keep : ℕ) (history : List EntryView) (log : LogView) (b : Reading) → LogRepresents keep history log b → (n : ℕ) (page : OpenPage) (g : IsGiven history n) → b.page ≡ Some page
        → LogRepresents keep history (with_result log (as_logged g.entry)) (record b { page = Some (record page { results = page.results ++ n ∷ []; answer = page.answer }) }) }
    ensures begins { (keep : ℕ) (history : List EntryView) (log : LogView) (b : Reading) → LogRepresents keep history log b → (max began : ℕ) → AreGiven history (log_of b)
        → LogRepresents keep history (with_begun log (queryid_of (b.asked + 1)) max) (asking (last_in (log_of b)) max began b).reading }
    ensures restarts { (keep : ℕ) (history : List EntryView) (log : LogView) (b : Reading) → LogRepresents keep history log b → (page : OpenPage) (began : ℕ) → b.page ≡ Some page
        → LogRepresents keep history (with_restart log (queryid_of (b.asked + 1))) (asking None page.max began b).reading }
    ensures dropped { (keep : ℕ) (history : List EntryView) (log : LogView) (b : Reading) → LogRepresents keep history log b → LogRepresents keep history (without_page log) (record b { page = None }) }
    ensures held { (keep : ℕ) (history : List EntryView) (log : LogView) (b : Reading) → LogRepresents keep history log b → (e : LogEntry) (n : ℕ) → e.id ≡ id_of n → n < 2 ^ 64 → IsReadingGiven history b
        → LogRepresents keep history (after_hold log e) (hold n b) }
{}

/// A law: where the application takes a page over, whose end came, so does the log (`ends`), and behind it the log shows the
/// reading still (`over`). The end tells how many entries the archive keeps.
pub fn pages_are_taken_over()
    ensures ends { (keep : ℕ) (history : List EntryView) (log : LogView) (b : Reading) → LogRepresents keep history log b → IsReadingGiven history b → (page : OpenPage) → b.page ≡ Some page
        → (q : ℕ) (complete : Bool) (last : Option ℕ) (count : ℕ) (fin : Fin) → IsFinOf fin complete last count → ((k : ℕ) → last ≡ Some k → k < 2 ^ 64)
        → (page.number == q && same_position last (last_in page.results) && are_new (log_of b) page.results && (complete || not (is_empty page.results))) ≡ true
        → end_of log (page_shown history page) fin ≡ Ok (outcome_of complete) }
    ensures over { (keep : ℕ) (history : List EntryView) (log : LogView) (b : Reading) → LogRepresents keep history log b → IsReadingGiven history b → (page : OpenPage) → b.page ≡ Some page
        → (a : Around) (complete : Bool) (last : Option ℕ) (count : ℕ) (fin : Fin) → IsFinOf fin complete last count → count ≡ min (option_map_or (λ answer. answer.last) page.answer a.last) keep
        → LogRepresents keep history (after_fin log fin) (over a complete count page b) }
{}
