//! A law of connections that are not open.
ghost use Rattle.std.specs.Prelude.{◌≡◌, ℕ, true, List, [], ◌∷◌, ◌++◌, None};
ghost use Rattle.std.specs.List.{AllByRecursion};
ghost use Rattle.srv_state.specs.State.{conn_at};
ghost use Rattle.srv_core.specs.Telling.{is_told};
ghost use Rattle.cmd_journal.specs.AccountsFiles.{AccountsView};
ghost use Rattle.cmd_journal.specs.Journals.{AreEvents, EventView, Gone};
ghost use Rattle.cmd_rerun.specs.Happening.{happens};
ghost use Rattle.cmd_rerun.specs.Silence.{IsOther, Quiet};
ghost use Rattle.law_closed.specs.Untold.{TellsOthers, ran};

/// A law: whatever happens to a server, nothing is put out for a connection that is not open, until it comes. It is not open
/// once the server shut it, and once it is gone (RFC 6120, section 4.4), and stays so until it comes.
pub fn who_is_not_open_is_told_nothing()
    ensures quiet { (file : AccountsView) (events later : List EventView) (k : ℕ) → AreEvents 0 events → conn_at k (ran file events).server.server_state ≡ None → AllByRecursion (IsOther k) later
        → TellsOthers k (ran file events).outs (ran file (events ++ later)).outs }
    ensures later { (file : AccountsView) (events later : List EventView) (k : ℕ) → AreEvents 0 events → conn_at k (ran file events).server.server_state ≡ None → AllByRecursion (IsOther k) later
        → Quiet k (happens later (ran file events).server).outs }
    ensures shut { (file : AccountsView) (events : List EventView) (k : ℕ) → AreEvents 0 events → is_told k (ran file events).outs ≡ true → conn_at k (ran file events).server.server_state ≡ None }
    ensures gone { (file : AccountsView) (events : List EventView) (k moment : ℕ) → AreEvents 0 events → conn_at k (ran file (events ++ Gone k moment ∷ [])).server.server_state ≡ None }
    ensures stays { (file : AccountsView) (events later : List EventView) (k : ℕ) → AreEvents 0 events → conn_at k (ran file events).server.server_state ≡ None → AllByRecursion (IsOther k) later
        → conn_at k (ran file (events ++ later)).server.server_state ≡ None }
{}
