//! Readings and histories of worlds of the applications.
ghost use Rattle.std.specs.Option.{IfSome};
ghost use Rattle.std.specs.Prelude.{◌≡◌, ℕ, ◌∷◌, ◌≤◌, ◌<◌, ◌^◌, false, true, List, Some, length, slice_get};
ghost use Rattle.sim_3_items.specs.Meant.{Fits};
ghost use Rattle.sim_5_devices.specs.Shown.{IsReadingGiven};
ghost use Rattle.law_payloads.specs.AsRead.{last_moment};
ghost use Rattle.sim_5_devices.specs.Named.{AreNamed};
ghost use Rattle.cmd_schedule.specs.Contents.{Owned};
ghost use Rattle.sim_1_applications.specs.Devices.{AppWorld, Device};
ghost use Rattle.sim_1_applications.specs.Events.{around, reads};
ghost use Rattle.sim_1_applications.specs.Kept.{Read, Taken};
ghost use Rattle.sim_1_applications.specs.Stanzas.{Down};
ghost use Rattle.sim_1_applications.specs.Reported.{history_at};
ghost use Rattle.sim_5_devices.specs.Logged.{IsCounted};
ghost use Rattle.sim_5_devices.specs.Plain.{IsPlain};

/// A law: in a world that events reach, the numbers that a device's reading has are of entries of its account's history, and
/// its open page asks for a number of 64 bits of entries. The next stanza that a device handles that is online makes no
/// fault, and where it ends a page it tells how many entries the archive kept when it answered.
pub fn readings_are_known()
    ensures given { (owned : List Owned) (w : AppWorld) → Read w → length w.takes < 2 ^ 64 → (i : ℕ) (d : Device) → slice_get w.devices i ≡ Some d → IsReadingGiven (history_at owned w.takes d.account) d.reading }
    ensures most { (w : AppWorld) → Read w → (i : ℕ) (d : Device) → slice_get w.devices i ≡ Some d → IfSome d.reading.page (λ page. Fits page.max) }
    ensures well { (w : AppWorld) → Taken w → Read w → (i : ℕ) (d : Device) → slice_get w.devices i ≡ Some d → d.sessions.online ≡ true → (x : Down) (rest : List Down) → d.sessions.now.down_rest ≡ x ∷ rest
        → (reads (around w d) x d.reading).reading.faulty ≡ false }
    ensures counted { (w : AppWorld) → Read w → (i : ℕ) (d : Device) → slice_get w.devices i ≡ Some d → d.sessions.online ≡ true → (x : Down) (rest : List Down) → d.sessions.now.down_rest ≡ x ∷ rest
        → IsCounted w.keep (around w d) d.reading.page x }
{}

/// A law: in a world whose accounts and devices are named as in a schedule, and whose clock has a stamp, the histories have
/// only entries that are read as they are.
pub fn histories_of_worlds_are_plain()
    ensures { (owned : List Owned) (w : AppWorld) → Taken w → AreNamed owned w → w.clock ≤ last_moment → length w.takes < 2 ^ 64 → (account : List ℕ) → IsPlain (history_at owned w.takes account) }
{}
