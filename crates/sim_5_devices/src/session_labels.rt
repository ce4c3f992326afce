//! Labels of the links in sessions as lists, and in the world of the two applications.
ghost use Rattle.std.specs.List.{AllByRecursion};
ghost use Rattle.std.specs.Prelude.{◌≡◌, ℕ, [], ◌∷◌, List, Some, map, slice_get};
ghost use Rattle.sim_3_items.specs.Labels.{Label, Takes, gives_all, labels_of};
ghost use Rattle.sim_2_links.specs.Events.{seen};
ghost use Rattle.sim_2_links.specs.Machine.{LinkMove, LinkReached, LinkReaches};
ghost use Rattle.sim_2_links.specs.Views.{View};
ghost use Rattle.sim_2_events.specs.Lists.{IsDevice, Stanzas};
ghost use Rattle.sim_5_devices.specs.Labels.{DoesAll, DoesInterleaved, IsGivenAtOnce, IsPlain, IsTakenAtOnce, SessionStep, SessionSteps, session_step_events, with_device};
ghost use Rattle.sim_1_applications.specs.Devices.{AppWorld, Device, Sessions};
ghost use Rattle.sim_1_applications.specs.Events.{Act, Reaches, acted, around, own, taken_by};

/// A law: the labels of moves of the links are done in the sessions that are seen of them, in their order. Between two
/// of them the session takes steps: the server binds it, counts it, or ends it.
pub fn labels_are_done_in_sessions<A>()
    ensures { (r : Stanzas A) (moves : List (LinkMove A)) (v last : View A) (d : Sessions) → LinkReached v → LinkReaches moves v last → IsDevice r (seen v) d
        → (end : Sessions) × DoesInterleaved r (labels_of moves) d end × IsDevice r (seen last) end }
{}

/// A law: where the labels are the client's, and none is that it read that a session was bound, all drifts may as well
/// have come before the first of them.
pub fn session_steps_come_first<A>()
    ensures { (r : Stanzas A) (ds : List (Label A)) (d last : Sessions) → AllByRecursion IsPlain ds → DoesInterleaved r ds d last
        → (xs : List SessionStep) × (there : Sessions) × SessionSteps xs d there × DoesAll r ds there last }
{}

/// A law: the stanzas that the server gives a session, also directly behind one that it takes, are given without a drift
/// between them.
pub fn stanzas_are_given_at_once<A>()
    ensures given { (r : Stanzas A) (z : A) (zs : List A) (d last : Sessions) → DoesInterleaved r (gives_all (z ∷ zs)) d last → IsGivenAtOnce (map r.down (z ∷ zs)) d last }
    ensures taken { (r : Stanzas A) (z : A) (zs : List A) (d last : Sessions) → DoesInterleaved r (Takes z ∷ gives_all zs) d last → IsTakenAtOnce (r.up z) (map r.down zs) d last }
{}

/// A law: drifts are events of the device, and nothing else happens in the world of the applications (`session_steps`).
/// So it is of each act by which no message is taken: the device at the place does it, and the others stay (`alone`).
pub fn session_steps_are_events()
    ensures session_steps { (xs : List SessionStep) (w : AppWorld) (i : ℕ) (d : Device) (last : Sessions) → slice_get w.devices i ≡ Some d → SessionSteps xs d.sessions last
        → Reaches (session_step_events i xs) w (with_device i (record d { sessions = last }) w) }
    ensures alone { (w : AppWorld) (i : ℕ) (act : Act) (d : Device) → slice_get w.devices i ≡ Some d → taken_by w.accounts w.clock i d act ≡ [] → acted w i act d ≡ with_device i (own (around w d) act d) w }
{}
