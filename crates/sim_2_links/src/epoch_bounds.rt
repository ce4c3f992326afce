//! The epoch of a device within the numbers of its sessions.
ghost use Rattle.std.specs.Prelude.{◌≡◌, ℕ, ◌+◌, ◌≤◌, Some};
ghost use Rattle.sim_2_links.specs.Views.{Session, View};
ghost use Rattle.sim_2_links.specs.Machine.{LinkReached};

/// A law: a device's epoch is no higher than the number below which those of its sessions are (`within`), and no session
/// has an epoch above its own number and one (`each`). For each bind result that the client reads is of a session with a
/// number above all that have an epoch.
pub fn epochs_are_within_numbers<A>()
    ensures within { (v : View A) → LinkReached v → v.epoch ≤ v.free }
    ensures each { (v : View A) → LinkReached v → (q e : ℕ) (s : Session A) → v.sessions q ≡ Some s → s.epoch ≡ Some e → (e ≤ q + 1) × (e ≤ v.epoch) }
{}
