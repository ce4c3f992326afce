//! What the tries of an intent come to.
ghost use Rattle.std.specs.Prelude.{◌≡◌, ℕ, ◌≤◌, false, true, List, [], ◌∷◌, Some, length, slice_get};
ghost use Rattle.std.specs.List.{AllByRecursion};
ghost use Rattle.sim_1_applications.specs.Devices.{Device, Tile};
ghost use Rattle.law_intents.specs.Intents.{IntentReached, IntentWorld, Notes, Try, is_absent, is_acknowledged, is_logged, is_taken, observed, taken_of};

use sim_1_applications::messages_are_taken_once_in_order;

/// A law: whatever happens to the two applications, and whenever the observer looks, one message at most is taken of all
/// tries of an intent (`once`), and none of those before the newest (`newest`). Where the newest is absent, none is taken
/// of any (`absent`). Where it is logged, or acknowledged and to an account that exists, exactly one is (`logged`,
/// `acknowledged`).
pub fn an_intent_is_taken_once_at_most()
    ensures once { (i : ℕ) (s : IntentWorld) → IntentReached i s → (d : Device) → slice_get s.world.devices i ≡ Some d → length (taken_of i s.tries s.world.takes) ≤ 1 }
    ensures newest { (i : ℕ) (s : IntentWorld) → IntentReached i s → (d : Device) → slice_get s.world.devices i ≡ Some d →
        (t : Try) (tries : List Try) → s.tries ≡ t ∷ tries → AllByRecursion (λ u. is_taken i u s.world.takes ≡ false) tries }
    ensures absent { (i : ℕ) (s : IntentWorld) → IntentReached i s → (d : Device) → slice_get s.world.devices i ≡ Some d →
        (t : Try) (tries : List Try) → s.tries ≡ t ∷ tries → is_absent i t s.notes s.world.takes d ≡ true → taken_of i s.tries s.world.takes ≡ [] }
    ensures logged { (i : ℕ) (s : IntentWorld) → IntentReached i s → (d : Device) → slice_get s.world.devices i ≡ Some d →
        (t : Try) (tries : List Try) → s.tries ≡ t ∷ tries → is_logged i t s.world.takes d ≡ true → length (taken_of i s.tries s.world.takes) ≡ 1 }
    ensures acknowledged { (i : ℕ) (s : IntentWorld) → IntentReached i s → (d : Device) → slice_get s.world.devices i ≡ Some d →
        (t : Try) (tries : List Try) → s.tries ≡ t ∷ tries → is_acknowledged s.world.accounts t d ≡ true → length (taken_of i s.tries s.world.takes) ≡ 1 }
{
    messages_are_taken_once_in_order()
}

/// A law: there is an intent whose first try was lost with its session, and is absent (`absent`); and one that was then
/// tried again, was taken, and is logged (`logged`). So intents are submitted again, and what the law of intents says of
/// them is said of some.
pub fn intents_are_tried_again()
    ensures absent { (s : IntentWorld) × IntentReached 0 s × (d : Device) × (slice_get s.world.devices 0 ≡ Some d)
        × (t : Try) × (s.tries ≡ t ∷ []) × (is_absent 0 t s.notes s.world.takes d ≡ true) }
    ensures logged { (s : IntentWorld) × IntentReached 0 s × (d : Device) × (slice_get s.world.devices 0 ≡ Some d)
        × (t u : Try) × (s.tries ≡ u ∷ t ∷ []) × (is_logged 0 u s.world.takes d ≡ true) }
{}

/// A law: an observer that looks again at what it saw notes nothing new. So it need look only where something changed.
pub fn looking_again_changes_nothing()
    ensures { (e : ℕ) (ts : List Tile) (o : Notes) → observed e ts (observed e ts o) ≡ observed e ts o }
{}
