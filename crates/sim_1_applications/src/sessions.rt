//! Laws of the two applications.
//!
//! A page that was taken over is known by what the archive had given when it was answered (`Tile.given`): its place,
//! numbers and TOTAL are computed from that (`IsTile`), as in the direct run, so that the lemmas on turns serve both.
ghost use Rattle.std.specs.Prelude.{◌≡◌, ℕ, ◌≤◌, List, Some, drop, length, slice_get};
ghost use Rattle.sim_1_applications.specs.Devices.{AppWorld, Device, epoch_of, first_of, last_of};
ghost use Rattle.sim_1_applications.specs.Events.{AppEvent, Moves, Reached, Reaches, beginning};
ghost use Rattle.sim_1_applications.specs.Events.Act.{Bind};
ghost use Rattle.sim_1_applications.specs.Events.AppEvent.{At};
ghost use Rattle.sim_1_applications.specs.Kept.{Read, Taken};
ghost use Rattle.sim_1_applications.specs.Laws.{AreAbove, IsFrontTaken, IsOnceInOrder, IsSettled, IsUpToLast};

/// A law: what is known of sessions and takes (`Taken`), and of pages and logs (`Read`), holds at the beginning, and each
/// event that may happen keeps it.
pub fn each_event_keeps()
    ensures begins { (keep : ℕ) (accounts homes : List (List ℕ)) → 1 ≤ keep → Taken (beginning keep accounts homes) × Read (beginning keep accounts homes) }
    ensures taken { (event : AppEvent) (w next : AppWorld) → Moves event w next → Taken w → Taken next }
    ensures read { (event : AppEvent) (w next : AppWorld) → Moves event w next → Taken w → Read w → Read next }
{}

/// A law: whatever happens to the two applications, in any order, what was taken of a device is what was handled of its
/// sessions, one session after the other; and no client meets an answer that it refuses (`no_fault` of `PageKept`).
pub fn reached_states_are_kept()
    ensures taken { (w : AppWorld) → Reached w → Taken w }
    ensures read { (w : AppWorld) → Reached w → Read w }
{}

/// A law: each message of a device is taken at most once and in order; of its session a front of what went to accounts
/// that exist was taken, and what was acknowledged is within it.
pub fn messages_are_taken_once_in_order()
    ensures rise { (w : AppWorld) → Reached w → (i : ℕ) (d : Device) → slice_get w.devices i ≡ Some d → IsOnceInOrder w.takes i }
    ensures front { (w : AppWorld) → Reached w → (i : ℕ) (d : Device) → slice_get w.devices i ≡ Some d → IsFrontTaken w.accounts d.sessions.now }
{}

/// A law: behind a handled bind no message of an epoch that the device had reached by then is taken any more.
pub fn takes_after_a_bind_are_new()
    ensures { (w next v : AppWorld) (i : ℕ) (d : Device) (all : List AppEvent) → Reached w → slice_get w.devices i ≡ Some d → Moves (At i Bind) w next →
        Reaches all next v → AreAbove (epoch_of d.sessions) i (drop (length w.takes) v.takes) }
{}

/// A law: at any time each entry that an archive keeps, and whose number is no greater than the last one of a device's
/// log, is in that log.
pub fn logs_have_what_is_kept()
    ensures { (w : AppWorld) → Reached w → (i : ℕ) (d : Device) → slice_get w.devices i ≡ Some d →
        IsUpToLast (first_of w.keep (last_of w.takes d.account)) d }
{}

/// A law: where both ends have the session and nothing is under way between them, no page is.
pub fn settled_devices_await_no_page()
    ensures { (w : AppWorld) → Reached w → (i : ℕ) (d : Device) → slice_get w.devices i ≡ Some d → IsSettled d }
{}
