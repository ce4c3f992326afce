//! The system's clock.
ghost use Rattle.std.specs.Prelude.{◌≡◌, []};

use base_log::Log;
use net_traits::{Clock, LAST_MOMENT_TOLD};
use std::time::{self, SystemTime};

/// The system's clock. It tells what it answered. Where the system tells no time, or one before 1970, it is 0.
#[derive(Drop)]
pub struct SystemClock<'a, R> {
    clock: &'a R,
    log: Log,
}

impl<'a, R: time::Clock> SystemClock<'a, R> {
    /// The clock, which has answered nothing yet.
    pub fn new(clock: &'a R) -> SystemClock<'a, R>
        ensures { ⟦<SystemClock<'a, R> as Clock>⟧.told result ≡ [] }
    {
        SystemClock {
            clock,
            log: Log::new(),
        }
    }
}

// The milliseconds since 1970.
fn since_1970<R: time::Clock>(clock: &R) -> u128 {
    match SystemTime::now(clock) {
        Ok(now) => match now.duration_since(SystemTime::UNIX_EPOCH) {
            Ok(since) => since.as_millis(),
            Err(_) => 0,
        },
        Err(_) => 0,
    }
}

impl<'a, R: time::Clock> Clock for SystemClock<'a, R> {
    ghost told = { λ s. s.log.items };

    fn now_ms(&mut self) -> u64 {
        let now = since_1970(self.clock).min(u128::from(LAST_MOMENT_TOLD)) as u64;
        self.log.note_number(now);
        now
    }
}
