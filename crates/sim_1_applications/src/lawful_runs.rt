//! Laws of the reports of runs.
ghost use Rattle.std.specs.List.{AllByRecursion, flat_map};
ghost use Rattle.std.specs.Option.{option_map};
ghost use Rattle.std.specs.Prelude.{◌≡◌, ℕ, ◌≤◌, min, List, length, map, Option};
ghost use Rattle.mam_archive.specs.Entries.{AreKept, EntryView};
ghost use Rattle.mam_archive.specs.Ids.{id_of};
ghost use Rattle.cmd_direct.specs.Direct.{query_after};
ghost use Rattle.mam_pages.specs.Kept.{kept_by};
ghost use Rattle.mam_pages.specs.PageOf.{page_of};
ghost use Rattle.cmd_report.specs.LawfulRuns.{IsLawfulKeeping};
ghost use Rattle.cmd_report.specs.Reports.{ReportView};
ghost use Rattle.cmd_report.specs.Worlds.{ReportWorld};
ghost use Rattle.cmd_schedule.specs.Schedules.{WireView, seen_of};
ghost use Rattle.cmd_schedule.specs.LineLists.{IsLineList};
ghost use Rattle.cmd_schedule.specs.declared.schedule.Version.TheVariants.{Two};
ghost use Rattle.sim_1_applications.specs.Answers.{page_answer_of};
ghost use Rattle.sim_1_applications.specs.Devices as sessions;
ghost use Rattle.sim_1_applications.specs.Devices.{first_of};
ghost use Rattle.sim_1_applications.specs.Events.{AppEvent, Reaches};
ghost use Rattle.sim_1_applications.specs.Pages.{IsGiven, stanzas_of};
ghost use Rattle.sim_1_applications.specs.Runs.{IsLineDone, IsRunOf, LineRun, begins, moves_of, owned_of};

/// A law: the report of each run of a list of lines of version 2, over sessions that may stop at any time, keeps the five
/// laws of that version. What the archives keep is the newest of what was taken; each message is taken at most once and in
/// order; what is acknowledged was taken; each log is runs of its account's history, broken only where entries were
/// purged; and the pages of a log are tiles of it, each as fresh as its archive.
pub fn sessions_are_lawful()
    ensures { (keep : ℕ) (s : WireView) (worlds : List ReportWorld) (r : ReportView) → s.version ≡ Two keep → IsRunOf s worlds r →
        IsLawfulKeeping keep worlds (seen_of s) r }
{}

/// A law: each run of a list of lines has worlds and a report, so that laws of these speak of something. A run is what
/// each line led to, in moves that reach a state.
pub fn runs_are_reported()
    ensures { (s : WireView) (runs : List LineRun) (last : sessions.AppWorld) → IsLineList s → map (λ (r : LineRun). r.line) runs ≡ s.lines →
        AllByRecursion (IsLineDone (owned_of s)) runs → Reaches (flat_map (λ (move : List AppEvent). move) (moves_of runs)) (begins s) last →
        length last.takes ≤ 4294967295 → (worlds : List ReportWorld) × (r : ReportView) × IsRunOf s worlds r }
{}

/// A law: what the server answers to a request, by numbers alone, is the page that `page_of` cuts of what the archive keeps:
/// its results and its end (XEP-0313, section 4), or that the place isn't there (XEP-0059, section 2.2).
pub fn answers_are_pages()
    ensures { (keep last q most : ℕ) (after : Option ℕ) (owner : List ℕ) (kept : List EntryView) → 1 ≤ keep → AreKept keep last kept →
        length kept ≡ min last keep → most ≤ 100 → IsGiven last after →
        page_answer_of (first_of keep last) last (record { number = q; after = after; max = most })
        ≡ stanzas_of q (page_of (kept_by owner kept) (query_after (option_map id_of after) most)) }
{}
