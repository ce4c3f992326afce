//! The rule of the queue: what was put is what was taken, and then what the queue holds.
ghost use Rattle.std.specs.Prelude.{◌≡◌, ◌++◌};

use crossbeam_channel::protocol::{Join, Lesson, Outcome, Protocol, Split};
use std::collections::LinkedList;

/// What a pass may do, and what it knows: of one that puts, what was put, and of one that takes, what was taken. No value of it
/// is made.
pub struct Side<T> {
    pub puts: bool,
    pub takes: bool,
    pub put: LinkedList<T>,
    pub got: LinkedList<T>,
}

/// The rule of the queue.
pub struct Relay;

impl<T> Protocol<T, Side<T>> for Relay {
    ghost use Rattle.std.specs.Prelude.{true, []};
    ghost use Rattle.net_queues.specs.Rule.{side, IsRelayed};

    ghost holds = { IsRelayed };

    ghost first = { side true true [] [] };
}

/// A pass that may do both is split into one that puts and one that takes; and is made of these two again.
pub struct Lend;

impl<T> Split<Side<T>> for Lend {
    ghost use Rattle.std.specs.Prelude.{true, false, []};
    ghost use Rattle.net_queues.specs.Rule.{side};

    ghost left = { λ v. side true false v.put [] };

    ghost right = { λ v. side false true [] v.got };
}

impl<T> Join<Side<T>> for Lend {
    ghost use Rattle.std.specs.Prelude.{true, false, []};
    ghost use Rattle.net_queues.specs.Rule.{side};

    ghost both = { λ v w. side true true v.put w.got };

    ghost spent = { side false false [] [] };
}

/// An item is put. Where it is refused, at least as many items were put as the queue holds.
pub struct Offered;

impl<T> Outcome<T, Side<T>> for Offered {
    ghost use Rattle.net_queues.specs.Rule.{with_put};

    ghost then = { λ v x w. w ≡ with_put v x };
}

impl<T> Lesson<T, Side<T>> for Offered {
    ghost use Rattle.std.specs.Prelude.{◌≤◌, length};

    ghost fact = { λ v items. length items ≤ length v.put };
}

/// An item is taken.
pub struct Taken;

impl<T> Outcome<T, Side<T>> for Taken {
    ghost use Rattle.net_queues.specs.Rule.{with_got};

    ghost then = { λ v x w. w ≡ with_got v x };
}

impl<T> Lesson<T, Side<T>> for Taken {
    ghost use Rattle.std.specs.Prelude.{⊤};

    ghost fact = { λ v items. ⊤ };
}

/// What a pass that may do both knows of the queue.
pub struct Whole;

impl<T> Lesson<T, Side<T>> for Whole {
    ghost fact = { λ v items. v.put ≡ v.got ++ items };
}
