//! The rule of the queue: what was taken of each sender, and then what the queue holds of it, is what it sent, in order.
//!
//! The queue's rule is generic in its item, which names its sender. A merge is said sender by sender (`IsMerge`), for
//! events connection by connection (`AreMerged`).
ghost use Rattle.std.specs.Prelude.{◌≡◌, ℕ, ◌++◌, ◌∷◌, []};

use crossbeam_channel::protocol::{Join, Lesson, Outcome, Protocol, Split};
use std::collections::LinkedList;

/// An item that names its sender.
pub trait Sent {
    ghost from: { Self → ℕ };
}

/// What a pass knows. No value of it is made. A pass that sends knows what it sent, as the sender `from`. The one that
/// takes knows what it took; that senders with a number from `made` on have sent nothing; and, of the sender of which it
/// was told last, what that sent in all.
pub struct Known<T> {
    pub sends: bool,
    pub takes: bool,
    pub from: u64,
    pub put: LinkedList<T>,
    pub got: LinkedList<T>,
    pub made: u64,
    pub told: bool,
    pub told_from: u64,
    pub told_put: LinkedList<T>,
}

/// The rule of the queue.
pub struct InOrder;

impl<T: Sent> Protocol<T, Known<T>> for InOrder {
    ghost use Rattle.net_owner.specs.Rule.{Carries, owner};

    ghost holds = { Carries T.from };

    ghost first = { owner };
}

/// An item is sent by the sender that it names.
pub struct Put;

impl<T> Outcome<T, Known<T>> for Put {
    ghost use Rattle.net_owner.specs.Rule.{with_put};

    ghost then = { λ v x w. w ≡ with_put v x };
}

impl<T> Lesson<T, Known<T>> for Put {
    ghost use Rattle.std.specs.Prelude.{⊤};

    ghost fact = { λ v items. ⊤ };
}

/// The owner takes an item, and learns what is left of the sender of which it was told last.
pub struct Took;

impl<T> Outcome<T, Known<T>> for Took {
    ghost use Rattle.net_owner.specs.Rule.{with_got};

    ghost then = { λ v x w. w ≡ with_got v x };
}

impl<T: Sent> Lesson<T, Known<T>> for Took {
    ghost use Rattle.net_owner.specs.Rule.{IsTold};

    ghost fact = { λ v items. IsTold T.from v items };
}

/// A pass is made for the next sender.
pub struct Hire;

impl<T> Split<Known<T>> for Hire {
    ghost use Rattle.net_owner.specs.Rule.{with_more, sender};

    ghost left = { with_more };

    ghost right = { λ v. sender v.made };
}

/// The pass of a sender that has ended is taken in.
pub struct Retire;

impl<T> Join<Known<T>> for Retire {
    ghost use Rattle.net_owner.specs.Rule.{with_told, nobody};

    ghost both = { with_told };

    ghost spent = { nobody };
}

/// The owner learns that the next sender has sent nothing.
pub struct Fresh;

impl<T: Sent> Lesson<T, Known<T>> for Fresh {
    ghost use Rattle.std.specs.Prelude.{◌≡◌, ◌++◌, []};
    ghost use Rattle.net_owner.specs.Merge.{items_of};

    ghost fact = { λ v items. items_of T.from v.made (v.got ++ items) ≡ [] };
}
