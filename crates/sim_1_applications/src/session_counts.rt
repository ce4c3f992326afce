//! Laws of how large the numbers of a run become.
ghost use Rattle.std.specs.Prelude.{◌≡◌, ◌≢◌, ℕ, ◌+◌, ◌*◌, ◌≤◌, ◌++◌, List, None, Some, filter, length, map, slice_get};
ghost use Rattle.std.specs.List.{AllByRecursion, flat_map};
ghost use Rattle.sim_1_applications.specs.Stanzas.{messages};
ghost use Rattle.sim_1_applications.specs.Devices.{AppWorld, Device, OpenPage, epoch_of, up_put};
ghost use Rattle.sim_1_applications.specs.Answers.{following};
ghost use Rattle.sim_1_applications.specs.Events.{AppEvent, Moves, Reached, Reaches, beginning};
ghost use Rattle.sim_1_applications.specs.Events.Act.{ClientHandles};
ghost use Rattle.sim_1_applications.specs.Events.AppEvent.{At};
ghost use Rattle.sim_1_applications.specs.Histories.{spoken_in};
ghost use Rattle.sim_1_applications.specs.Kept.{Read, Taken, is_of};
ghost use Rattle.sim_1_applications.specs.Counts.{IsBetween, IsDownFew, IsNumberedWithin, IsTurn, IsUnanswered, IsUpFew, MayAsk, OfEach, number_of, requested, requested_in, said_by};

/// A law: in each session that a device had, the server put at most 101 stanzas for each one that it handled, and one for
/// each take (`down`); the client put messages, requests, and two stanzas at most beside them (`up`). So by what the
/// users said, and how many pages the client asked for, all stanzas of a session are counted (`whole`).
pub fn stanzas_are_few()
    ensures down { (w : AppWorld) → Reached w → (i : ℕ) (d : Device) → slice_get w.devices i ≡ Some d → OfEach (IsDownFew (length w.takes)) d }
    ensures up { (w : AppWorld) → Reached w → (i : ℕ) (d : Device) → slice_get w.devices i ≡ Some d → OfEach IsUpFew d }
    ensures whole { (keep : ℕ) (accounts homes : List (List ℕ)) (events : List AppEvent) (w : AppWorld) → Reaches events (beginning keep accounts homes) w →
        (i : ℕ) (d : Device) → slice_get w.devices i ≡ Some d →
        OfEach (λ s. (length (up_put s) ≤ 2 + length (said_by i events) + d.reading.asked)
        × (length (s.down_got ++ s.down_rest) ≤ 101 * (2 + length (said_by i events) + d.reading.asked) + length (spoken_in events))) d }
{}

/// A law: the requests that a client put have the numbers 1, 2, 3 and so on, over all of its sessions, up to that of the
/// last one (`numbers`); so no session has more (`few`). At one event this number stays, or rises by one where the user
/// asks for a page or the client handles a stanza (`rises`, `stays`).
pub fn requests_are_few()
    ensures numbers { (w : AppWorld) → Reached w → (i : ℕ) (d : Device) → slice_get w.devices i ≡ Some d → map number_of (requested d.sessions) ≡ following 0 d.reading.asked }
    ensures few { (w : AppWorld) → Reached w → (i : ℕ) (d : Device) → slice_get w.devices i ≡ Some d → OfEach (λ s. length (requested_in s) ≤ d.reading.asked) d }
    ensures rises { (event : AppEvent) (w next : AppWorld) → Moves event w next → (i : ℕ) (d e : Device) → slice_get w.devices i ≡ Some d → slice_get next.devices i ≡ Some e →
        (d.reading.asked ≤ e.reading.asked) × (e.reading.asked ≤ d.reading.asked + 1) }
    ensures stays { (event : AppEvent) (w next : AppWorld) → Moves event w next → (i : ℕ) (d e : Device) → slice_get w.devices i ≡ Some d → slice_get next.devices i ≡ Some e →
        (MayAsk i event → ⊥) → e.reading.asked ≡ d.reading.asked }
{}

/// A law: while a page is open and not answered, the client begins no other by handling stanzas (`leaves`); where it
/// begins one, that page is open and not answered (`begins`). So between two stanzas of the device that the server
/// handles it begins one at most, and none where no answer is under way, unless the user asks (`once`).
pub fn pages_begin_one_by_one()
    ensures leaves { (w next : AppWorld) (i : ℕ) (d e : Device) (page : OpenPage) → Read w → slice_get w.devices i ≡ Some d → d.reading.page ≡ Some page → page.answer ≡ None →
        Moves (At i ClientHandles) w next → slice_get next.devices i ≡ Some e → (e.reading.asked ≡ d.reading.asked) × (e.reading.page ≡ Some page) }
    ensures begins { (w next : AppWorld) (i : ℕ) (d e : Device) → slice_get w.devices i ≡ Some d → Moves (At i ClientHandles) w next → slice_get next.devices i ≡ Some e →
        e.reading.asked ≢ d.reading.asked → (page : OpenPage) × (e.reading.page ≡ Some page) × (page.answer ≡ None) × (page.number ≡ e.reading.asked) }
    ensures once { (events : List AppEvent) (w last : AppWorld) (i : ℕ) (d e : Device) → Taken w → Read w → AllByRecursion (IsBetween i) events → Reaches events w last →
        slice_get w.devices i ≡ Some d → slice_get last.devices i ≡ Some e →
        (e.reading.asked ≤ d.reading.asked + 1) × (IsUnanswered d → (e.reading.asked ≡ d.reading.asked) × IsUnanswered e) }
{}

/// A law: in each turn a device's client puts one request at most (`turn`), and none where it may put none (`none`). So it
/// asks for no more pages than there are turns (`turns`).
pub fn each_turn_asks_once()
    ensures turn { (events : List AppEvent) (w last : AppWorld) (i : ℕ) (d e : Device) → Taken w → Read w → IsTurn i events → Reaches events w last →
        slice_get w.devices i ≡ Some d → slice_get last.devices i ≡ Some e → e.reading.asked ≤ d.reading.asked + 1 }
    ensures none { (events : List AppEvent) (w last : AppWorld) (i : ℕ) (d e : Device) → AllByRecursion (λ event. MayAsk i event → ⊥) events → Reaches events w last →
        slice_get w.devices i ≡ Some d → slice_get last.devices i ≡ Some e → e.reading.asked ≡ d.reading.asked }
    ensures turns { (all : List (List AppEvent)) (w last : AppWorld) (i : ℕ) (d e : Device) → Taken w → Read w → AllByRecursion (IsTurn i) all →
        Reaches (flat_map (λ one. one) all) w last → slice_get w.devices i ≡ Some d → slice_get last.devices i ≡ Some e →
        e.reading.asked ≤ d.reading.asked + length all }
{}

/// A law: the messages that were taken are no more than the users said (`takes`), and those that a device's client put in
/// a session are no more than its user said (`messages`, `n`).
pub fn says_are_counted()
    ensures takes { (keep : ℕ) (accounts homes : List (List ℕ)) (events : List AppEvent) (w : AppWorld) → Reaches events (beginning keep accounts homes) w →
        length w.takes ≤ length (spoken_in events) }
    ensures messages { (keep : ℕ) (accounts homes : List (List ℕ)) (events : List AppEvent) (w : AppWorld) → Reaches events (beginning keep accounts homes) w →
        (i : ℕ) (d : Device) → slice_get w.devices i ≡ Some d → OfEach (λ s. length (messages (up_put s)) ≤ length (said_by i events)) d }
    ensures n { (keep : ℕ) (accounts homes : List (List ℕ)) (events : List AppEvent) (w : AppWorld) → Reaches events (beginning keep accounts homes) w →
        (i : ℕ) (d : Device) → slice_get w.devices i ≡ Some d → d.sessions.n ≤ length (said_by i events) }
{}

/// A law: the messages that were taken of a device are of epochs that it reached, and their numbers are no more than its
/// user said (`device`). So where no device's epoch is above a bound, that of no message that was taken is (`all`).
pub fn takes_are_counted()
    ensures device { (keep : ℕ) (accounts homes : List (List ℕ)) (events : List AppEvent) (w : AppWorld) → Reaches events (beginning keep accounts homes) w →
        (i : ℕ) (d : Device) → slice_get w.devices i ≡ Some d →
        AllByRecursion (λ t. IsNumberedWithin (epoch_of d.sessions) (length (said_by i events)) t.said) (filter (is_of i) w.takes) }
    ensures all { (keep : ℕ) (accounts homes : List (List ℕ)) (events : List AppEvent) (w : AppWorld) (high : ℕ) → Reaches events (beginning keep accounts homes) w →
        ((i : ℕ) (d : Device) → slice_get w.devices i ≡ Some d → epoch_of d.sessions ≤ high) →
        AllByRecursion (λ t. IsNumberedWithin high (length (spoken_in events)) t.said) w.takes }
{}
