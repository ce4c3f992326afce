//! A recorder takes the events of connections.
use crate::facts::are_bytes;
use crate::recorder::Recorder;
use crate::sending::close_all;
use base_io::NoMemory;
use net_owner::{Piece, Taker};
use net_traits::{Clock, Entropy, Outgoing};

impl<O: Outgoing + Drop> Taker<O> for Recorder<O> {
    ghost use Rattle.cmd_journal.specs.AccountsFiles.{accounts_text};
    ghost use Rattle.net_hub.specs.Records.{IsKept, bares_of};
    ghost use Rattle.net_hub.specs.Sendings.{AreClosed, numbers_of};

    ghost events = { λ s. bares_of s.events.items };

    ghost numbers = { λ s. numbers_of O.told s.senders.items };

    ghost keeps = { λ s moments drawn. IsKept O.told moments drawn s };

    ghost fixed = { λ s. accounts_text s.file };

    ghost shut = { λ s. AreClosed O.closed s.senders.items };

    fn connect<C: Clock, E: Entropy>(
        &mut self,
        clock: &mut C,
        entropy: &mut E,
        k: u64,
        half: O,
    ) -> Result<bool, NoMemory> {
        let mut half = half;
        let mut drawn = [0u8; 24];
        match entropy.fill(&mut drawn) {
            Ok(()) => {}
            Err(_) => {
                half.close();
                return Ok(false);
            }
        }
        are_bytes(drawn.as_slice());
        let now = clock.now_ms();
        self.begin(k, now, &drawn, half)?;
        Ok(true)
    }

    fn piece<C: Clock>(&mut self, clock: &mut C, k: u64, piece: Piece) -> Result<(), NoMemory> {
        let now = clock.now_ms();
        self.hear(k, now, piece.bytes)
    }

    fn gone<C: Clock>(&mut self, clock: &mut C, k: u64) -> Result<(), NoMemory> {
        let now = clock.now_ms();
        self.leave(k, now)
    }

    fn close_all(&mut self) {
        close_all(&mut self.senders);
    }
}
