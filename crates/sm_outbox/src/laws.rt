//! Laws, over any type of what is put: what happens to what waits is a move of acknowledged delivery (XEP-0198, sections 4
//! and 5), and the submissions that wait are in it.
ghost use Rattle.std.specs.Prelude.{◌≡◌, ◌-◌, ◌%◌, ◌^◌, ◌<◌, ◌≤◌, ◌↔◌, ◌⊎◌, ℕ, Bool, false, [], length, map, take, true};
ghost use Rattle.sm_acks.specs.Counters.{ahead};
ghost use Rattle.sm_acks.specs.Delivery.{Acknowledge, Direction, Handle, Moves, Put, Reached, Resume, beginning};
ghost use Rattle.sm_outbox.specs.Directions.{AreQueued, Receives, Sends, chosen};
ghost use Rattle.sm_outbox.specs.Submissions.{SaidView, acknowledged, with_said};
ghost use Rattle.sm_outbox.specs.Waiting.{Waiting, acked, count_true, counted_in, is_too_high, nothing_waits, queued, resent, submissions_to};
ghost use Rattle.sm_outbox.specs.declared.said.Said.{Said};

use sm_acks::MOST_UNACKNOWLEDGED;

/// A law: a new session stands for two directions on which nothing happened. To put a stanza, and to count one as handled,
/// is that move of the one direction, and leaves the other as it was.
pub fn puts_are_moves<A>()
    ensures begins { Sends {A = A} nothing_waits beginning × Receives {A = A} nothing_waits beginning }
    ensures puts { (z : A) (kind : Bool) (w : Waiting A) (d next : Direction A) → Sends w d → Moves (Put z) d next → Sends (queued w z kind) next }
    ensures handles { (w : Waiting A) (d next : Direction A) → Receives w d → Moves Handle d next → Receives (counted_in w) next }
    ensures others { (z : A) (kind : Bool) (w : Waiting A) (sent got : Direction A) → Sends w sent → Receives w got → Receives (queued w z kind) got × Sends (counted_in w) sent }
{}

/// A law: to take a count that was stated, and is not below the last one, is to acknowledge it, though counts wrap at 2^32.
pub fn counts_are_moves<A>()
    ensures { (h n : ℕ) (w : Waiting A) (d next : Direction A) → length w.queue ≤ MOST_UNACKNOWLEDGED → Reached d → Sends w d → Moves (Acknowledge n) d next → h ≡ n % 2 ^ 32 →
        (is_too_high w h ≡ false) × (ahead h w.acked ≡ n - d.acked) × Sends (acked w h) next }
{}

/// A law: a resumption with the count of what was handled is that move, and what is sent again is all that is under way
/// then. One that comes late, with a count that was stated before, acknowledges that count. Where fewer than 2^32 stanzas
/// were put, a count is too high exactly where it is below the last one that was acknowledged, or above the number of those
/// that were put.
pub fn resumptions_are_moves<A>()
    ensures resumes { (h : ℕ) (w : Waiting A) (d next : Direction A) → length w.queue ≤ MOST_UNACKNOWLEDGED → Reached d → Sends w d → Moves Resume d next → h ≡ length d.got % 2 ^ 32 →
        (is_too_high w h ≡ false) × (resent w h ≡ next.way) × Sends (acked w h) next }
    ensures late { (h n : ℕ) (w : Waiting A) (d next : Direction A) → length w.queue ≤ MOST_UNACKNOWLEDGED → Reached d → Sends w d → Moves (Acknowledge n) d next → h ≡ n % 2 ^ 32 →
        (is_too_high w h ≡ false) × Sends (acked w h) next }
    ensures exact { (h : ℕ) (w : Waiting A) (d : Direction A) → Sends w d → length d.put < 2 ^ 32 → h < 2 ^ 32 → (is_too_high w h ≡ true) ↔ ((h < d.acked) ⊎ (length d.put < h)) }
{}

/// A law: the submissions that wait are those in the queue, in order, each as the stanza that `stanza` makes of it; so
/// they are as many. It holds of a new session where none wait, and each call keeps it. Those that a count acknowledges
/// are the ones whose stanzas it takes out of the queue.
pub fn waiting_submissions_are_queued<A>()
    ensures begins { (stanza : Said → A) (s : SaidView) → s.waiting ≡ [] → AreQueued stanza nothing_waits s }
    ensures says { (stanza : Said → A) (said : Said) (w : Waiting A) (s : SaidView) → AreQueued stanza w s → AreQueued stanza (queued w (stanza said) true) (with_said s said) }
    ensures puts { (stanza : Said → A) (z : A) (w : Waiting A) (s : SaidView) → AreQueued stanza w s → AreQueued stanza (queued w z false) s }
    ensures handles { (stanza : Said → A) (w : Waiting A) (s : SaidView) → AreQueued stanza w s → AreQueued stanza (counted_in w) s }
    ensures acknowledges { (stanza : Said → A) (h : ℕ) (w : Waiting A) (s : SaidView) → AreQueued stanza w s → AreQueued stanza (acked w h) (acknowledged (submissions_to w h) s) }
    ensures left { (stanza : Said → A) (h : ℕ) (w : Waiting A) (s : SaidView) → AreQueued stanza w s →
        chosen (take (ahead h w.acked) w.queue) (take (ahead h w.acked) w.submissions) ≡ map stanza (take (submissions_to w h) s.waiting) }
    ensures number { (stanza : Said → A) (w : Waiting A) (s : SaidView) → AreQueued stanza w s → count_true w.submissions ≡ length s.waiting }
{}
