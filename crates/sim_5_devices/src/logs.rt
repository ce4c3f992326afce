//! A client's log beside the reading of the applications.
ghost use Rattle.std.specs.Prelude.{◌≡◌, ℕ, ◌<◌, ◌^◌, false, true, List, Some, length};
ghost use Rattle.std.specs.List.{AllByRecursion};
ghost use Rattle.mam_archive.specs.Entries.{EntryView};
ghost use Rattle.sim_3_items.specs.Reading.{client_step_on};
ghost use Rattle.sim_3_items.specs.Downs.{down_stanza};
ghost use Rattle.sim_3_items.specs.ItemWorlds.{ItemDevice};
ghost use Rattle.sm_outbox.specs.Sessions.{SessionView};
ghost use Rattle.sm_outbox.specs.Waiting.{is_full};
ghost use Rattle.cmd_schedule.specs.Contents.{Owned};
ghost use Rattle.sim_3_items.specs.Built.{IsDown};
ghost use Rattle.sim_1_applications.specs.Devices.{Reading, Take};
ghost use Rattle.sim_1_applications.specs.Events.{Around, reads};
ghost use Rattle.sim_1_applications.specs.Stanzas.{Request};
ghost use Rattle.sim_1_applications.specs.Reported.{history_at};
ghost use Rattle.sim_5_devices.specs.Logged.{HasRoomFor, IsCounted, IsLeftAs, IsOnline, IsReadAs};
ghost use Rattle.sim_5_devices.specs.Plain.{IsNamedTake, IsPlain};
ghost use Rattle.xml_writer.specs.Items.{ItemOut};

/// A law: a client that is online, whose log shows a reading, reads a stanza that the server built, of which the reading's
/// application makes no fault. Then its log shows what the reading becomes, it asks for a page exactly where that one does,
/// and for the same, and nothing else becomes of it but that the stanza is counted.
pub fn stanzas_are_logged()
    ensures { (o : Owned) (keep : ℕ) (history : List EntryView) (d : ItemDevice) (s : SessionView ItemOut) (b : Reading) (z : ItemOut) (a : Around)
        → IsOnline o keep history d s b → IsPlain history → IsDown o history z → IsCounted keep a b.page (down_stanza z) → (reads a (down_stanza z) b).reading.faulty ≡ false → HasRoomFor s (reads a (down_stanza z) b).request
        → IsReadAs o keep history d s z (reads a (down_stanza z) b) (client_step_on z d) }
{}

/// A law: where that reaction is to ask for a page, and as many stanzas wait in the session as may, the client leaves the
/// connection instead; its log shows the reading but for the page, of which none is open.
pub fn full_clients_leave()
    ensures { (o : Owned) (keep : ℕ) (history : List EntryView) (d : ItemDevice) (s : SessionView ItemOut) (b : Reading) (z : ItemOut) (a : Around)
        → IsOnline o keep history d s b → IsPlain history → IsDown o history z → IsCounted keep a b.page (down_stanza z) → (reads a (down_stanza z) b).reading.faulty ≡ false → (r : Request)
        → (reads a (down_stanza z) b).request ≡ Some r → is_full s.waiting ≡ true → IsLeftAs keep history d s z (reads a (down_stanza z) b) (client_step_on z d) }
{}

/// A law: the history of an account that the takes of named devices make, at moments that have a stamp, has only entries
/// that are read as they are. (A schedule of 100,000 lines, each of which moves the clock on by at most 1,000,000,000
/// milliseconds, comes to no later moment.)
pub fn histories_are_plain()
    ensures { (owned : List Owned) (takes : List Take) (account : List ℕ) → AllByRecursion (IsNamedTake owned) takes → length takes < 2 ^ 64 → IsPlain (history_at owned takes account) }
{}
