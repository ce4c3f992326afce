//! The links stay prompt and in time, and what this says of a client's queue and of a device that is settled.
//!
//! The client's queue is bounded by two counts, of requests for pages and of their ends (`Paging.antt`).
//!
//! Resumptions ask that in no session 2^32 stanzas were put (`AreCountable`), and that a client's queue is no longer
//! than may wait (`few` in `IsOwn`): counts are told modulo 2^32.
ghost use Rattle.std.specs.Prelude.{◌≡◌, ◌≤◌, ℕ, true, [], IfSome, List, Some, length};
ghost use Rattle.sim_3_items.specs.Clients.{ClientRepresents};
ghost use Rattle.sim_3_items.specs.Labels.{ArePrompt, awaits, labels_of};
ghost use Rattle.sim_3_items.specs.Identities.{Identity, Login};
ghost use Rattle.sim_3_items.specs.Items.{stanzas_read};
ghost use Rattle.sim_3_items.specs.ItemWorlds.{ItemDevice};
ghost use Rattle.sim_2_links.specs.Covers.{PromptReached};
ghost use Rattle.sim_2_links.specs.Events.{seen};
ghost use Rattle.sim_2_links.specs.Machine.{LinkMove, LinkReaches, nothing_yet};
ghost use Rattle.sim_2_links.specs.Paging.{PagingReached};
ghost use Rattle.sim_2_links.specs.Stages.{Conn};
ghost use Rattle.sim_2_links.specs.Views.{View};
ghost use Rattle.sim_2_links.specs.Wires.{down_words, is_flowing, up_words};
ghost use Rattle.sim_2_events.specs.Lists.{IsDevice};
ghost use Rattle.sim_5_devices.specs.InTime.{AreInTime, paging_here};
ghost use Rattle.sim_1_applications.specs.Devices.{Sessions};
ghost use Rattle.sim_1_applications.specs.Reported.{IsAtRest};
ghost use Rattle.xml_writer.specs.Items.{ItemOut};

/// A law: along moves that are prompt the links stay prompt, and where the labels of these moves are in time, the links
/// stay in time as well: all that is needed is said of the applications' lists. They are so at the beginning.
pub fn links_stay_in_time()
    ensures begins { PagingReached paging_here nothing_yet × PromptReached awaits nothing_yet }
    ensures paging { (moves : List (LinkMove ItemOut)) (v next : View ItemOut) (d : Sessions) → PagingReached paging_here v → LinkReaches moves v next → ArePrompt moves → IsDevice stanzas_read (seen v) d
        → AreInTime (labels_of moves) d.now → PagingReached paging_here next }
    ensures prompt { (moves : List (LinkMove ItemOut)) (v next : View ItemOut) → PromptReached awaits v → LinkReaches moves v next → ArePrompt moves → PromptReached awaits next }
{}

/// A law: then at most 1002 stanzas wait in the client's session to be acknowledged.
pub fn queues_are_short()
    ensures { (who : Identity) (logins : ℕ → Login) (d : ItemDevice) (v : View ItemOut) → PagingReached paging_here v → ClientRepresents who logins d v → IfSome d.client.session (λ s. length s.waiting.queue ≤ 1002) }
{}

/// A law: and where nothing is under way on the connection that the client works on, and it has not ended, the device is
/// at rest: both ends have its session, each handled all that the other put, and no message waits to be acknowledged.
pub fn settled_is_at_rest()
    ensures { (v : View ItemOut) (k : ℕ) (c : Conn ItemOut) (d : Sessions) → PromptReached awaits v → IsDevice stanzas_read (seen v) d → v.here ≡ Some k → v.conns k ≡ Some c → is_flowing c.wires ≡ true → up_words c.wires ≡ []
        → down_words c.wires ≡ [] → IsAtRest d }
{}
