//! What a client's submissions and its log become by calls, counts and sessions.
//!
//! A client's submissions are shown by their lines and by which stanzas wait, not by the stanzas in its queue: that
//! the queue has these is said of the links.
ghost use Rattle.std.specs.Prelude.{◌≡◌, ℕ, List, [], ◌∷◌, ◌++◌, Bool, true, false, None, Option, Some};
ghost use Rattle.mam_archive.specs.Entries.{EntryView};
ghost use Rattle.cl_core.specs.UserCalls.{catches_up, closes, dials, forgets, says};
ghost use Rattle.law_client.specs.Calls.{first_client};
ghost use Rattle.cl_handlers.specs.AckRows.{ack_row};
ghost use Rattle.cl_handlers.specs.Clients.{ClientStep, ClientView};
ghost use Rattle.cl_handlers.specs.SessionRows.{begins, begins_epoch, failed_row, resumed_row};
ghost use Rattle.cl_handlers.specs.Speech.{in_items};
ghost use Rattle.cl_handlers.specs.ClientSteps.{dropped};
ghost use Rattle.cl_handlers.specs.declared.account.Account.{Account};
ghost use Rattle.cl_handlers.specs.declared.phase.Phase.{Phase};
ghost use Rattle.sim_3_items.specs.Labels.{Says};
ghost use Rattle.sim_3_items.specs.Reading.{noted};
ghost use Rattle.sim_3_items.specs.Meant.{requested, submitted};
ghost use Rattle.sim_3_items.specs.ItemMoves.{fed_of};
ghost use Rattle.sim_3_items.specs.ItemWorlds.{silent_client_step};
ghost use Rattle.sim_2_events.specs.Lists.{knows, no_sessions};
ghost use Rattle.mam_log.specs.Views.{LogView};
ghost use Rattle.sim_5_devices.specs.Shown.{IsReadingGiven, LogRepresents};
ghost use Rattle.sm_outbox.specs.Sessions.{SessionView, with_waiting};
ghost use Rattle.sm_outbox.specs.Waiting.{counted_in, queued};
ghost use Rattle.cmd_report.specs.Addresses.{bare_address, domain};
ghost use Rattle.cmd_schedule.specs.Contents.{Owned};
ghost use Rattle.sim_3_items.specs.Built.{IsUpAs};
ghost use Rattle.sim_3_items.specs.Submitted.{SubmissionsRepresent};
ghost use Rattle.sim_1_applications.specs.Answers.{last_in};
ghost use Rattle.sim_1_applications.specs.Devices.{Device, Reading, Sessions, Take, new_device};
ghost use Rattle.sim_1_applications.specs.Events.{Act, Around, CatchUp, May, acknowledged, ask, goes_offline, hear_all, moved_down, own, put_all, put_up, queries, reads_bound};
ghost use Rattle.sim_1_applications.specs.Events as events;
ghost use Rattle.sim_1_applications.specs.Stanzas.{Carbons, Down, Message, Presence, Query, Request};
ghost use Rattle.sim_1_applications.specs.Reported.{history_at};
ghost use Rattle.sim_5_devices.specs.Told.{IsAcked, IsBinding, IsCatchingUp, IsCounted, IsEntering, IsOfServer, IsSaying, SameLog, SameSaid, SameUps, next_request, next_submission, queued_where};
ghost use Rattle.xml_writer.specs.Items.{ItemOut};

/// A law: where a device's user submits a message to an account by its name, and its client takes it, the client of the
/// applications says it (`may`): the submission waits, by its epoch and number, and the message that is put is the one
/// that it stands for.
pub fn says_told()
    ensures represents { (o : Owned) (c : ClientView ItemOut) (d : Sessions) (to text : List ℕ) (private : Bool) → IsSaying o c d to text
        → SubmissionsRepresent (says in_items (silent_client_step c) (bare_address to) text private).client (events.says to text private d) }
    ensures same { (o : Owned) (c : ClientView ItemOut) (d : Sessions) (to text : List ℕ) (private : Bool) → IsSaying o c d to text
        → SameLog c (says in_items (silent_client_step c) (bare_address to) text private).client }
    ensures put { (o : Owned) (c : ClientView ItemOut) (d : Sessions) (to text : List ℕ) (private : Bool) → IsSaying o c d to text
        → noted (says in_items (silent_client_step c) (bare_address to) text private).out.notes ≡ Says (submitted o.device domain (next_submission d to text private)) ∷ [] }
    ensures built { (o : Owned) (c : ClientView ItemOut) (d : Sessions) (to text : List ℕ) (private : Bool) → IsSaying o c d to text
        → IsUpAs o (Message (next_submission d to text private)) (submitted o.device domain (next_submission d to text private)) }
    ensures may { (o : Owned) (c : ClientView ItemOut) (d : Sessions) (to text : List ℕ) → IsSaying o c d to text → d.online ≡ true }
{}

/// A law: where the user asks for the archive, and the client takes it, the client of the applications catches up: the page
/// behind the log's last entry is under way, and its request is put; nothing changes of the submissions.
pub fn catch_ups_told()
    ensures represents { (keep : ℕ) (history : List EntryView) (c : ClientView ItemOut) (x : Device) (most began : ℕ) → IsCatchingUp keep history c x most
        → SubmissionsRepresent (catches_up in_items (silent_client_step c) most).client (ask (last_in x.reading.run) most began x).sessions }
    ensures log { (keep : ℕ) (history : List EntryView) (c : ClientView ItemOut) (x : Device) (most began : ℕ) → IsCatchingUp keep history c x most
        → LogRepresents keep history (catches_up in_items (silent_client_step c) most).client.log (ask (last_in x.reading.run) most began x).reading }
    ensures pages { (keep : ℕ) (history : List EntryView) (c : ClientView ItemOut) (x : Device) (most began : ℕ) → IsCatchingUp keep history c x most
        → (catches_up in_items (silent_client_step c) most).client.pages ≡ (ask (last_in x.reading.run) most began x).reading.asked }
    ensures same { (keep : ℕ) (history : List EntryView) (c : ClientView ItemOut) (x : Device) (most : ℕ) → IsCatchingUp keep history c x most
        → SameSaid c (catches_up in_items (silent_client_step c) most).client × ((catches_up in_items (silent_client_step c) most).client.account ≡ c.account) }
    ensures put { (keep : ℕ) (history : List EntryView) (c : ClientView ItemOut) (x : Device) (most : ℕ) → IsCatchingUp keep history c x most
        → noted (catches_up in_items (silent_client_step c) most).out.notes ≡ Says (requested (next_request x.reading most)) ∷ [] }
    ensures built { (o : Owned) (keep : ℕ) (history : List EntryView) (c : ClientView ItemOut) (x : Device) (most : ℕ) → IsCatchingUp keep history c x most
        → IsUpAs o (Query (next_request x.reading most)) (requested (next_request x.reading most)) }
    ensures may { (keep : ℕ) (history : List EntryView) (c : ClientView ItemOut) (x : Device) (most : ℕ) → IsCatchingUp keep history c x most → May (CatchUp most) x }
{}

/// A law: a request that waits, and a stanza that is handled, change nothing of the submissions, and so it is for the client
/// of the applications where it handles a stanza and perhaps asks for a page.
pub fn requests_told()
    ensures asks { (c e : ClientView ItemOut) (d : Sessions) (s : SessionView ItemOut) (z : ItemOut) (r : Request) → SubmissionsRepresent c d → IsAcked d → SameSaid c e → c.session ≡ Some s
        → e.session ≡ Some (with_waiting s (queued s.waiting z false)) → SubmissionsRepresent e (put_up (Query r) d) }
    ensures handles { (c e : ClientView ItemOut) (d : Sessions) (s : SessionView ItemOut) (y : Down) (rest : List Down) → SubmissionsRepresent c d → SameSaid c e → c.session ≡ Some s
        → e.session ≡ Some (with_waiting s (counted_in s.waiting)) → SubmissionsRepresent e (moved_down y rest d) }
    ensures reacts { (c e : ClientView ItemOut) (d : Sessions) (s : SessionView ItemOut) (y : Down) (rest : List Down) (o : Option Request) → SubmissionsRepresent c d → IsAcked d → SameSaid c e → c.session ≡ Some s
        → e.session ≡ Some (with_waiting s (queued_where o (counted_in s.waiting))) → SubmissionsRepresent e (put_all (queries o) (moved_down y rest d)) }
{}

/// A law: a count that the server tells, where the session is attached or where it is resumed, acknowledges what the client
/// of the applications hears to be handled, and nothing else of it changes.
pub fn counts_told()
    ensures represents { (t : ClientStep ItemOut ItemOut) (d : Sessions) (s : SessionView ItemOut) (n h : ℕ) → IsCounted t.client d s n h → SubmissionsRepresent (ack_row in_items t s h).client (acknowledged n d) }
    ensures resumed { (t : ClientStep ItemOut ItemOut) (d : Sessions) (s : SessionView ItemOut) (n h : ℕ) → IsCounted t.client d s n h → SubmissionsRepresent (resumed_row in_items t s h).client (acknowledged n d) }
    ensures same { (t : ClientStep ItemOut ItemOut) (d : Sessions) (s : SessionView ItemOut) (n h : ℕ) → IsCounted t.client d s n h
        → SameLog t.client (ack_row in_items t s h).client × SameLog t.client (resumed_row in_items t s h).client }
{}

/// A law: the sessions themselves. At the beginning there is none (`begins`, `empty`). Where one is given up, of what waits
/// it isn't known what became of it, and the open page is broken off (`dropped`, `failed`, `forgot`, `closed`, `broken`);
/// where a resource is bound a new epoch begins (`bound`), and with an enabled session what is put is waited for
/// (`entered`). A connection that begins or is left changes nothing (`dialed`, `stays`).
pub fn sessions_told()
    ensures begins { (account : Account) → SubmissionsRepresent (first_client account) no_sessions }
    ensures empty { (keep : ℕ) (history : List EntryView) (account : Account) (name : List ℕ) → LogRepresents keep history (first_client {A = ItemOut} account).log (new_device name).reading }
    ensures dropped { (c : ClientView ItemOut) (d : Sessions) (p : Phase) → SubmissionsRepresent c d → SubmissionsRepresent (record (dropped c) { phase = p }) (goes_offline d) }
    ensures failed { (t : ClientStep ItemOut ItemOut) (d : Sessions) → SubmissionsRepresent t.client d → SubmissionsRepresent (failed_row in_items t).client (goes_offline d) }
    ensures forgot { (c : ClientView ItemOut) (d : Sessions) → SubmissionsRepresent c d → SubmissionsRepresent (forgets in_items (fed_of c)).turn.client (goes_offline d) }
    ensures closed { (c : ClientView ItemOut) (d : Sessions) → SubmissionsRepresent c d → SubmissionsRepresent (closes in_items (fed_of c)).turn.client (goes_offline d) }
    ensures broken { (keep : ℕ) (history : List EntryView) (c : ClientView ItemOut) (b : Reading) → LogRepresents keep history c.log b
        → LogRepresents keep history (dropped c).log (record b { page = None }) × LogRepresents keep history (closes in_items (fed_of c)).turn.client.log (record b { page = None }) }
    ensures bound { (t : ClientStep ItemOut ItemOut) (d : Sessions) (live : Bool) → IsBinding t.client d → SubmissionsRepresent (begins_epoch in_items t).client (reads_bound live d) }
    ensures entered { (t : ClientStep ItemOut ItemOut) (d : Sessions) (previd : List ℕ) → IsEntering t.client d → SubmissionsRepresent (begins in_items t previd).client (put_up Presence (put_up Carbons (knows d))) }
    ensures dialed { (c : ClientView ItemOut) (d : Sessions) (entropy : List ℕ) → SubmissionsRepresent c d → SubmissionsRepresent (dials in_items entropy (fed_of c)).turn.client d }
    ensures stays { (c : ClientView ItemOut) (d : Sessions) (p : Phase) → SubmissionsRepresent c d → SubmissionsRepresent (record c { phase = p }) d }
{}

/// A law: what the server does, at a device or for others, tells a client nothing: it shows the same submissions, and its
/// log the same reading (`acts`, `served`, `hears`, `heard`). A history that grows leaves the log what it is, and what it
/// has of the history (`grown`, `given`), and so it does where the server takes more (`taken`).
pub fn servers_tell_nothing()
    ensures same { (c : ClientView ItemOut) (d e : Sessions) → SameUps d e → SubmissionsRepresent c d → SubmissionsRepresent c e }
    ensures acts { (c : ClientView ItemOut) (a : Around) (act : Act) (x : Device) → IsOfServer act → SubmissionsRepresent c x.sessions → SubmissionsRepresent c (own a act x).sessions }
    ensures served { (keep : ℕ) (history : List EntryView) (log : LogView) (a : Around) (act : Act) (x : Device) → IsOfServer act
        → LogRepresents keep history log x.reading × IsReadingGiven history x.reading → LogRepresents keep history log (own a act x).reading × IsReadingGiven history (own a act x).reading }
    ensures hears { (c : ClientView ItemOut) (takes new : List Take) (full : List ℕ) (j : ℕ) (x : Device) → SubmissionsRepresent c x.sessions → SubmissionsRepresent c (hear_all takes full new j x).sessions }
    ensures heard { (takes new : List Take) (full : List ℕ) (j : ℕ) (x : Device) → (hear_all takes full new j x).reading ≡ x.reading }
    ensures grown { (keep : ℕ) (history more : List EntryView) (log : LogView) (b : Reading) → IsReadingGiven history b → LogRepresents keep history log b → LogRepresents keep (history ++ more) log b }
    ensures given { (history more : List EntryView) (b : Reading) → IsReadingGiven history b → IsReadingGiven (history ++ more) b }
    ensures taken { (keep : ℕ) (owned : List Owned) (takes new : List Take) (account : List ℕ) (log : LogView) (b : Reading)
        → LogRepresents keep (history_at owned takes account) log b × IsReadingGiven (history_at owned takes account) b
        → LogRepresents keep (history_at owned (takes ++ new) account) log b × IsReadingGiven (history_at owned (takes ++ new) account) b }
{}
