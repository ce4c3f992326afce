//! Laws of how large the counts of links become.
ghost use Rattle.std.specs.Prelude.{◌≡◌, ℕ, ◌+◌, ◌*◌, ◌^◌, ◌<◌, ◌≤◌, ◌++◌, List, Some, length, slice_get};
ghost use Rattle.sim_2_links.specs.Events.{seen};
ghost use Rattle.sim_2_links.specs.Machine.{LinkReached};
ghost use Rattle.sim_2_links.specs.Views.{Session, View};
ghost use Rattle.sim_2_events.specs.Lists.{IsDevice, Stanzas};
ghost use Rattle.sim_1_applications.specs.Counts.{OfEach, said_by};
ghost use Rattle.sim_1_applications.specs.Devices.{AppWorld, Device, epoch_of, up_put};
ghost use Rattle.sim_1_applications.specs.Events.{AppEvent, Reaches, beginning};
ghost use Rattle.sim_1_applications.specs.Histories.{spoken_in};

/// A law: where the sessions of the two applications are those of a device's links, and in none of them more stanzas were
/// put than so many, in no session of the links more are (`puts`); and the epoch that the client reached is no higher
/// than the number below which those of the links' sessions are (`epochs`).
pub fn counts_are_those_of_sessions<A>()
    ensures puts { (r : Stanzas A) (v : View A) (d : Device) (up down : ℕ) → IsDevice r (seen v) d.sessions →
        OfEach (λ s. (length (up_put s) ≤ up) × (length (s.down_got ++ s.down_rest) ≤ down)) d →
        (q : ℕ) (s : Session A) → v.sessions q ≡ Some s → (length s.up.put ≤ up) × (length s.down.put ≤ down) }
    ensures epochs { (r : Stanzas A) (v : View A) (d : Device) → IsDevice r (seen v) d.sessions → LinkReached v → epoch_of d.sessions ≤ v.free }
{}

/// A law: where the users say so many messages at most, and a device's client asked for so many pages and one at most, no
/// session of its links has more stanzas than those and three that its client put, and a hundred and one for each of
/// these and one for each message that the server put (`puts`); so no count of its comes to 2 ^ 32 where that doesn't
/// (`few`).
pub fn runs_are_countable<A>()
    ensures puts { (r : Stanzas A) (keep : ℕ) (accounts homes : List (List ℕ)) (events : List AppEvent) (w : AppWorld) → Reaches events (beginning keep accounts homes) w →
        (i : ℕ) (d : Device) → slice_get w.devices i ≡ Some d → (says pages : ℕ) → length (spoken_in events) ≤ says → d.reading.asked ≤ pages + 1 →
        (v : View A) → IsDevice r (seen v) d.sessions → (q : ℕ) (s : Session A) → v.sessions q ≡ Some s →
        (length s.up.put ≤ says + pages + 3) × (length s.down.put ≤ 101 * (says + pages + 3) + says) }
    ensures few { (r : Stanzas A) (keep : ℕ) (accounts homes : List (List ℕ)) (events : List AppEvent) (w : AppWorld) → Reaches events (beginning keep accounts homes) w →
        (i : ℕ) (d : Device) → slice_get w.devices i ≡ Some d → (says pages : ℕ) → length (spoken_in events) ≤ says → d.reading.asked ≤ pages + 1 →
        101 * (says + pages + 4) + says < 2 ^ 32 →
        (v : View A) → IsDevice r (seen v) d.sessions → (q : ℕ) (s : Session A) → v.sessions q ≡ Some s → (length s.up.put < 2 ^ 32) × (length s.down.put < 2 ^ 32) }
{}
