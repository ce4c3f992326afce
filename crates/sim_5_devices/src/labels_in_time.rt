//! The labels of the two applications are in time.
//!
//! Promptness is said of the client's moves; whether a stanza is put in time of the applications' lists.
ghost use Rattle.std.specs.Prelude.{◌≡◌, ◌≢◌, ◌≤◌, ◌+◌, ℕ, true, false, [], ◌∷◌, List, None, Ok, Some, drop, length, map, slice_get, take};
ghost use Rattle.cl_core.specs.UserCalls.{say_answer};
ghost use Rattle.sim_5_devices.specs.Pages.{EndsFor, IsPaged};
ghost use Rattle.sim_3_items.specs.Clients.{ClientRepresents};
ghost use Rattle.sim_3_items.specs.Labels.{Enters, Reads, Says, Takes, gives_all, says_all};
ghost use Rattle.sim_3_items.specs.Identities.{Identity, Login};
ghost use Rattle.sim_3_items.specs.Downs.{down_stanza};
ghost use Rattle.sim_3_items.specs.Items.{stanzas_read};
ghost use Rattle.sim_3_items.specs.Ups.{up_stanza};
ghost use Rattle.sim_3_items.specs.ItemWorlds.{ItemDevice};
ghost use Rattle.sim_2_links.specs.Events.{seen};
ghost use Rattle.sim_2_links.specs.Machine.{LinkReached};
ghost use Rattle.sim_2_links.specs.Paging.{many, one_if};
ghost use Rattle.sim_2_links.specs.Views.{View};
ghost use Rattle.sim_2_events.specs.Lists.{IsDevice};
ghost use Rattle.sim_5_devices.specs.InTime.{AreInTime, is_end, is_query};
ghost use Rattle.im_requests.specs.Sessions.{available_item, carbons_item};
ghost use Rattle.sim_1_applications.specs.Devices.{AppWorld, Counted, Device, Session, Sessions, up_put};
ghost use Rattle.sim_1_applications.specs.Events.{AppEvent, Around, Reaches, beginning, queries, reads, reply};
ghost use Rattle.sim_1_applications.specs.Kept.{SessionsKept};
ghost use Rattle.sim_1_applications.specs.Stanzas.{Up};
ghost use Rattle.xml_writer.specs.Items.{ItemOut};

/// A law: in each session of a device the server ends no page that was not asked for, and the client asks for one page
/// after the other (XEP-0313, section 4), wherever events of the applications lead.
pub fn pages_are_in_time()
    ensures { (keep : ℕ) (accounts homes : List (List ℕ)) (events : List AppEvent) (w : AppWorld) → Reaches events (beginning keep accounts homes) w → (i : ℕ) (d : Device) → slice_get w.devices i ≡ Some d → IsPaged d }
{}

/// A law: so all that the two ends put is put in time. Of the server: what it puts as it handles a stanza (`takes`), which
/// ends a page at most where that is a request (`replies`), and messages (`gives`). Of the client: what it puts as it reads
/// the end of a page (`reads`), a request for a page where its user asks for one (`asks`), a message while its queue has
/// room for one (`says`, `room`), and the two stanzas with which a session begins (`enters`).
pub fn labels_are_in_time()
    ensures takes { (d : Device) (z : ItemOut) (zs : List ItemOut) → IsPaged d → EndsFor z zs → AreInTime (Takes z ∷ gives_all zs) d.sessions.now }
    ensures replies { (a : Around) (fits : ℕ) (z : Up) → many is_end (take fits (reply a z)) ≤ one_if (is_query z) }
    ensures gives { (s : Session) (zs : List ItemOut) → many is_end (map down_stanza zs) ≡ 0 → AreInTime (gives_all zs) s }
    ensures reads { (a : Around) (d : Device) (z : ItemOut) (zs : List ItemOut) → IsPaged d → map up_stanza zs ≡ queries (reads a (down_stanza z) d.reading).request → AreInTime (Reads z ∷ says_all zs) d.sessions.now }
    ensures asks { (d : Device) (z : ItemOut) → IsPaged d → d.sessions.online ≡ true → d.reading.page ≡ None → is_query (up_stanza z) ≡ true → AreInTime (Says z ∷ []) d.sessions.now }
    ensures says { (s : Session) (z : ItemOut) → is_query (up_stanza z) ≡ false → length (drop s.acked (up_put s)) + 1 ≤ 1000 → AreInTime (Says z ∷ []) s }
    ensures room { (who : Identity) (logins : ℕ → Login) (c : ItemDevice) (v : View ItemOut) (d : Sessions) (text : List ℕ) (n : ℕ) → LinkReached v → ClientRepresents who logins c v → IsDevice stanzas_read (seen v) d → say_answer c.client text ≡ Ok n
        → length (drop d.now.acked (up_put d.now)) + 1 ≤ 1000 }
    ensures enters { (d : Device) → SessionsKept d.sessions → d.sessions.now.stage ≡ Counted → AreInTime (Enters ∷ Says carbons_item ∷ Says available_item ∷ []) d.sessions.now }
{}
