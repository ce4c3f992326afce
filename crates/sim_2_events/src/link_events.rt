//! The moves of the links as acts of the two applications.
//!
//! Sessions as lists stand apart from links, so that no proof of a law looks into a pipe and no proof of a pipe into
//! a stanza. They meet in twelve events, in a crate of their own. Every event touches only the present session of a
//! device; numbers of sessions don't occur. What was put is what was handled and a rest, by form.
ghost use Rattle.std.specs.Prelude.{◌≡◌, ℕ, true, false, [], ◌∷◌, List, Option, length, take, nat_lt};
ghost use Rattle.sim_2_links.specs.Views.{View};
ghost use Rattle.sim_2_links.specs.Events.{Follows, IsSeenAs, LinkEvent, Seen, seen};
ghost use Rattle.sim_2_links.specs.Machine.{LinkMove, LinkMoves, LinkReached, nothing_yet};
ghost use Rattle.sim_2_links.specs.Telling.{Tells};
ghost use Rattle.sim_1_applications.specs.Stanzas.{Down, Up};
ghost use Rattle.sim_1_applications.specs.Stanzas.Up.{Carbons, Presence};
ghost use Rattle.sim_1_applications.specs.Devices.{Device, Sessions};
ghost use Rattle.sim_1_applications.specs.Events.{Around, end_row, flagged, give, goes_online, moved_up, put_down, put_up, reply, served};
ghost use Rattle.sim_2_events.specs.Lists.{IsDevice, knows, no_sessions, Stanzas};
ghost use Rattle.sim_2_events.specs.Acts.{ActsLead, AreActs};

/// Each move of the links of a device is nothing to its two applications, or the act of one event, which may happen: its
/// premise is met, whatever the stanzas are to the server and to the client. What is seen of the device's sessions stays
/// what the lists are: so each run of moves is one of acts.
pub fn moves_are_acts_of_sessions<A>()
    ensures begins { (r : Stanzas A) → IsDevice r (seen nothing_yet) no_sessions }
    ensures moves { (r : Stanzas A) (move : LinkMove A) (v next : View A) (d : Sessions) → LinkReached v → LinkMoves move v next → IsDevice r (seen v) d →
        (e : Option (LinkEvent A)) × Tells move v e × IsSeenAs e (seen v) (seen next) × ((after : Sessions) × AreActs r e (seen v) d after × IsDevice r (seen next) after) }
    ensures runs { (r : Stanzas A) (v : View A) → LinkReached v → (es : List (LinkEvent A)) × Follows es (seen nothing_yet) (seen v) × ((d : Sessions) × ActsLead r es (seen nothing_yet) no_sessions d × IsDevice r (seen v) d) }
{}

/// An act with more than one stanza is its event and those of the stanzas behind it: the client puts two as it hears that
/// its session is counted; as the server handles one, it puts its reply as far as that fits, and ends the session where
/// some doesn't. What else an act changes of the sessions is not seen in the links.
pub fn acts_are_told_by_events<A>()
    ensures online { (d : Sessions) → goes_online d ≡ put_up Presence (put_up Carbons (knows d)) }
    ensures puts { (z : Down) (zs : List Down) (d : Sessions) → put_down (z ∷ zs) d ≡ put_down zs (put_down (z ∷ []) d) }
    ensures full { (fits : ℕ) (zs : List Down) (d : Sessions) → nat_lt fits (length zs) ≡ true → give fits zs d ≡ end_row (put_down (take fits zs) d) }
    ensures room { (fits : ℕ) (zs : List Down) (d : Sessions) → nat_lt fits (length zs) ≡ false → give fits zs d ≡ put_down (take fits zs) d }
    ensures handles { (a : Around) (fits : ℕ) (z : Up) (rest : List Up) (w : Device) → (served a fits (z ∷ rest) w).sessions ≡ give fits (reply a z) (flagged z (moved_up z rest w.sessions)) }
    ensures flags { (r : Stanzas A) (v : Seen A) (d : Sessions) (z : Up) (n : ℕ) → IsDevice r v d → IsDevice r v (record (flagged z d) { n = n }) }
{}
