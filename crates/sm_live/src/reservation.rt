//! What a session needs before it is made or resumed.
use base_io::NoMemory;
use sm_acks::QueueId;
use std::error::Error;
use std::fmt;

// An account for one session of which the table has room, and an empty queue for the session's stanzas.
#[derive(Clone, Copy)]
pub(crate) struct Reservation {
    pub(crate) account: u32,
    pub(crate) queue: QueueId,
}

/// Why no seat is reserved.
#[derive(Clone, Copy, Debug, PartialEq, Eq)]
pub enum ReservationFault {
    /// Each number of sessions, or each of queues, was given already: 2^64 - 1 of either.
    NumbersUsedUp,
    /// Memory ran out.
    NoMemory,
}

impl fmt::Display for ReservationFault {
    fn fmt<W: fmt::Write>(&self, f: &mut fmt::Formatter<W>) -> fmt::Result {
        f.write_str(match self {
            ReservationFault::NumbersUsedUp => "no number is left for a session or its queue",
            ReservationFault::NoMemory => "out of memory",
        })
    }
}

impl Error for ReservationFault {}

impl From<NoMemory> for ReservationFault {
    ghost use Rattle.std.specs.Prelude.{◌≡◌};
    ghost use Rattle.sm_live.specs.declared.reservation.ReservationFault.TheVariants.{NoMemory};

    ghost from_gives = { λ _ fault. fault ≡ NoMemory };

    fn from(_e: NoMemory) -> ReservationFault {
        ReservationFault::NoMemory
    }
}
