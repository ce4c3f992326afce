//! What reading and writing say of each other.
ghost use Rattle.std.specs.Prelude.{◌≡◌, ◌≤◌, ◌↔◌, ◌<ℤ◌, pos, ℕ, List};
ghost use Rattle.im_stamp.specs.declared.fault.StampFault.TheVariants.{BadStamp, BeforeEpoch};
ghost use Rattle.im_stamp.specs.StampReading.{moment_at, moment_of};
ghost use Rattle.im_stamp.specs.Dates.{stamp_at};
ghost use Rattle.im_stamp.specs.Stamps.{IsStamp, IsWritten, Parts, millis, moment, seconds};

use crate::stamp_writing::LAST_MOMENT;

/// A law: each stamp is read as its moment: `Ok` where that is from 1970 on and not past `LAST_MOMENT`, `BeforeEpoch` where it
/// is before 1970, and else `BadStamp`.
pub fn stamps_are_read()
    ensures { (text : List ℕ) (p : Parts) → IsStamp text p → moment_of text ≡ moment_at (seconds p) (millis p.digits) }
{}

/// A law: what is written for a moment is read as that moment, and a moment has one such text, which `stamp_at` tells.
pub fn stamp_is_read()
    ensures written { (ms : ℕ) → ms ≤ LAST_MOMENT → IsWritten ms (stamp_at ms) }
    ensures one { (ms : ℕ) (a b : List ℕ) → IsWritten ms a → IsWritten ms b → a ≡ b }
    ensures read { (ms : ℕ) (text : List ℕ) → ms ≤ LAST_MOMENT → IsWritten ms text → moment_of text ≡ Ok ms }
{}

/// A law: `read_stamp` by the stamps that a text is of. It answers `Ok` exactly where the text is a stamp of that moment,
/// which is not past `LAST_MOMENT`; `BeforeEpoch` exactly where it is a stamp of a moment before 1970; and `BadStamp` exactly
/// where each stamp that it is of is past `LAST_MOMENT`, as where it is none.
pub fn only_stamps_are_read()
    ensures ok { (text : List ℕ) (ms : ℕ) → (moment_of text ≡ Ok ms) ↔ ((p : Parts) × IsStamp text p × (moment p ≡ pos ms) × (ms ≤ LAST_MOMENT)) }
    ensures before { (text : List ℕ) → (moment_of text ≡ Err BeforeEpoch) ↔ ((p : Parts) × IsStamp text p × (moment p <ℤ pos 0)) }
    ensures bad { (text : List ℕ) → (moment_of text ≡ Err BadStamp) ↔ ((p : Parts) → IsStamp text p → pos LAST_MOMENT <ℤ moment p) }
{}
