//! The laws.
ghost use Rattle.std.specs.Prelude.{◌≡◌, ℕ, ◌≤◌, Some, length, slice_get};
ghost use Rattle.sm_acks.specs.Delivery.{IsPrefix};
ghost use Rattle.cmd_schedule.specs.Contents.{Owned};
ghost use Rattle.cmd_schedule.specs.Schedules.{WireView};
ghost use Rattle.cmd_schedule.specs.LineLists.{IsLineList};
ghost use Rattle.cmd_schedule.specs.declared.schedule.Count.{Count};
ghost use Rattle.sim_1_applications.specs.Runs.{owned_of};
ghost use Rattle.sim_7_schedules.specs.Courses.{GoesOn, HasCourse, IsFurther};
ghost use Rattle.sim_7_schedules.specs.Pairs.{IsPair, Pair};
ghost use Rattle.sim_7_schedules.specs.Untouched.{IsShutAt, IsUntouched};
ghost use Rattle.cmd_world.specs.Histories.{history_of};
ghost use Rattle.cmd_world.specs.Moves.{Up, moved};
ghost use Rattle.cmd_world.specs.Worlds.{ByteWorld};

/// A law: in each world of the history of a list of lines each device has pairs of directions of acknowledged delivery
/// (XEP-0198, sections 4 and 5), one of each epoch that its client has reached. The session that the server has of it and
/// the one that its client has are ends of such pairs, and of one pair where they name each other; the client's is that of
/// its present epoch, and so is the server's, or it has none while the client hasn't read that it was bound. Of an end the
/// counts are told, modulo 2^32, and its own stanzas that wait. In the pair of an epoch the messages that went up are told
/// by the report: the client put those of the device's `said` lines of that epoch, and of them the server handled those of
/// its `take` lines; and each such line is of an epoch that has a pair. All worlds have one assignment of pairs to the
/// numbers that the server gave: in the next world each pair is there under its number, each of its directions comes there
/// by moves of acknowledged delivery, and an epoch stays. A pair that is new is unused, or its client read of it in that
/// step. What the client handled and put in that step are the very stanzas that it notes down, in the session of the epoch
/// that it has then: of the bytes that are handed to it on the connection that it has, or as its user submits a message or
/// asks for a page; in any other step it handles and puts none. What the server handled in that step are the very stanzas
/// that it read in it, in the session of that epoch too: of the bytes that were handed to it on a connection of the device
/// while that was open and a session on it. What it puts in that step it puts in that session too, as it reads a stanza
/// there or on a connection of another device; and these are the stanzas that its outputs tell, as they are written: where
/// the device's session is on a connection, what it puts out on that one and begins as a stanza does (RFC 6120, section
/// 8.1), and where that session is parked, what joins its queue, or none where it ends. In any other step it puts none
/// (`pairs`). So what either end put and handled stays, stanza for stanza and in its order, and more may come behind
/// (`further`). What an end handled is the front of what the other end put, and no more is acknowledged than was handled
/// (`delivered`).
pub fn sessions_are_pairs()
    ensures pairs { (s : WireView) → IsLineList s → (i : ℕ) (o : Owned) → slice_get (owned_of s) i ≡ Some o → HasCourse s i o }
    ensures further { (p q : Pair) → IsPair p → GoesOn p q → IsFurther p.up q.up × IsFurther p.down q.down }
    ensures delivered { (p : Pair) → IsPair p → IsPrefix p.up.got p.up.put × IsPrefix p.down.got p.down.put × (p.up.acked ≤ length p.up.got) × (p.down.acked ≤ length p.down.got) }
{}

/// A law: in each world of such a history, where the server has no connection at a place, as behind one that it shut
/// (RFC 6120, section 4.4), what is handed to it there changes nothing but what is under way on that connection.
pub fn what_is_shut_changes_nothing()
    ensures { (s : WireView) → IsLineList s → (j : ℕ) (w : ByteWorld) → slice_get (history_of s) j ≡ Some w → (position : ℕ) → IsShutAt position w → (count : Count) → IsUntouched position w (moved (Up position count) w) }
{}
