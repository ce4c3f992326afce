//! Laws: what happens to a session is a move of acknowledged delivery (XEP-0198, sections 4 and 5).
ghost use Rattle.std.specs.Prelude.{◌≡◌, ◌-◌, ◌%◌, ◌^◌, ◌<◌, ◌≤◌, ◌↔◌, ◌⊎◌, ℕ, List, IsErr, Ok, Some, length};
ghost use Rattle.sm_acks.specs.Delivery.{Acknowledge, Direction, Handle, Moves, Put, Reached, Resume, beginning};
ghost use Rattle.sm_live.specs.Directions.{Receives, Sends};
ghost use Rattle.sm_live.specs.Sessions.{Session, ack_answer, acknowledged, fresh, handles, resume_answer, resume_ok, resumes, waits};

use sm_acks::MOST_UNACKNOWLEDGED;

/// A law: a session that is bound stands for two directions on which nothing happened; to put a stanza, and to count one as
/// handled, is that move.
pub fn puts_are_moves()
    ensures begins { (number account conn : ℕ) (resource : List ℕ) → Sends {A = List ℕ} (fresh number account resource conn) beginning × Receives {A = List ℕ} (fresh number account resource conn) beginning }
    ensures puts { (z : List ℕ) (s : Session (List ℕ)) (d next : Direction (List ℕ)) → Sends s d → Moves (Put z) d next → Sends (waits z s) next }
    ensures handles { (s : Session (List ℕ)) (d next : Direction (List ℕ)) → Receives s d → Moves Handle d next → Receives (handles s) next }
{}

/// A law: to take a count that was stated, and is not below the last one, is to acknowledge it, though counts wrap at 2^32.
pub fn counts_are_moves()
    ensures { (h n : ℕ) (s : Session (List ℕ)) (d next : Direction (List ℕ)) → length s.waiting ≤ MOST_UNACKNOWLEDGED → Reached d → Sends s d → Moves (Acknowledge n) d next → h ≡ n % 2 ^ 32 →
        (ack_answer h s ≡ Ok (n - d.acked)) × Sends (acknowledged h s) next }
{}

/// A law: a resumption with the count of what was handled is that move. One that comes late, with a count that was stated
/// before, acknowledges that count. Where fewer than 2^32 stanzas were put, a count is too high exactly where it is below
/// the last one that was acknowledged, or above the number of those that were put.
pub fn resumptions_are_moves()
    ensures resumes { (h conn : ℕ) (s : Session (List ℕ)) (d next : Direction (List ℕ)) → length s.waiting ≤ MOST_UNACKNOWLEDGED → Reached d → Sends s d → Moves Resume d next → h ≡ length d.got % 2 ^ 32 →
        (resume_answer h (Some s) ≡ Ok (resume_ok s)) × Sends (resumes h conn s) next }
    ensures late { (h n conn : ℕ) (s : Session (List ℕ)) (d next : Direction (List ℕ)) → length s.waiting ≤ MOST_UNACKNOWLEDGED → Reached d → Sends s d → Moves (Acknowledge n) d next → h ≡ n % 2 ^ 32 →
        (resume_answer h (Some s) ≡ Ok (resume_ok s)) × Sends (resumes h conn s) next }
    ensures exact { (h : ℕ) (s : Session (List ℕ)) (d : Direction (List ℕ)) → Sends s d → length d.put < 2 ^ 32 → h < 2 ^ 32 → IsErr (resume_answer h (Some s)) ↔ ((h < d.acked) ⊎ (length d.put < h)) }
{}
