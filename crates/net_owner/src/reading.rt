//! How a reader works.
ghost use Rattle.std.specs.Prelude.{◌≡◌, ◌<◌, ◌≤◌, ◌⊎◌, length, None, IfNone, IfOk, IfSome, OnOk, true};
ghost use Rattle.std.specs.Io.KnownBytes.{Appends, Keeps};
ghost use Rattle.crossbeam_channel.specs.Claims.{IsSeatAt, view};
ghost use Rattle.crossbeam_channel.specs.Ends.{sends_on};
ghost use Rattle.net_owner.specs.Rule.{sender};
ghost use Rattle.net_owner.specs.Feeds.{are_pieces, bytes_of, has_sent};
ghost use Rattle.net_owner.specs.Readers.{HasRead, HasStopped, IsReading};

use crate::item::{Item, Piece, What};
use crate::job::Job;
use crate::queue::{Receipt, Sending, post};
use crate::reader::{ReaderAnswer, ReaderJob};
use base_io::NoMemory;
use net_traits::Incoming;
use std::alloc::Global;
use std::sync::Wait;

/// How many bytes a reader asks for at a time.
pub const MOST_BYTES_ASKED: usize = 4096;

/// A reader ends once its half gave so many bytes.
pub const MOST_BYTES_GIVEN: u64 = 67_108_864;

// The next piece, or none where the read failed or found the end.
fn next_piece<I: Incoming>(alloc: Global, half: &mut I) -> Result<Option<Piece>, NoMemory>
    ensures number { (I.told half.new).number ≡ (I.told half.old).number }
    ensures silent { (I.told half.old).read ≡ None → (I.told half.new).read ≡ None }
    ensures some { IfOk result (λ o. IfSome o (λ piece. Appends (I.told half.old).read (I.told half.new).read piece.bytes.items)) }
    ensures bound { IfOk result (λ o. IfSome o (λ piece. length piece.bytes.items ≤ MOST_BYTES_ASKED)) }
    ensures none { IfOk result (λ o. IfNone o (Keeps (I.told half.old).read (I.told half.new).read)) }
    ensures why { IfOk result (λ o. IfNone o ((0 < (I.told half.new).faults) ⊎ (0 < (I.told half.new).ends))) }
{
    let mut buf = [0u8; MOST_BYTES_ASKED];
    match half.read(&mut buf) {
        Ok(0) => Ok(None),
        Ok(n) => {
            let piece = Piece::from_slice(alloc, &buf[..n])?;
            Ok(Some(piece))
        }
        Err(_) => Ok(None),
    }
}

// Reads and sends pieces, until a read fails or finds the end, or the half has given enough.
fn read_on<R: Wait, I: Incoming + Drop, P: Drop>(
    rt: &R,
    alloc: Global,
    half: &mut I,
    to: &Sending<Item<P>>,
    pass: &mut Receipt<Item<P>>,
    from: u64,
) -> Result<(), NoMemory>
    requires channel { IsSeatAt (sends_on to.now) pass.old }
    requires unused { view pass.old ≡ sender from }
    ensures channel { IsSeatAt (sends_on to.now) pass.new }
    ensures ok { OnOk result (IsReading from (view pass.new) (I.told half.old) (I.told half.new)) }
    ensures stopped { OnOk result (HasStopped (I.told half.new) (length (bytes_of (view pass.new).put))) }
    ensures shape { view pass.new ≡ has_sent from (view pass.new).put }
    ensures pieces { are_pieces (view pass.new).put ≡ true }
    ensures number { (I.told half.new).number ≡ (I.told half.old).number }
{
    let mut total: u64 = 0;
    for _ in rt.forever() {
        if total >= MOST_BYTES_GIVEN {
            break;
        }
        match next_piece(alloc, half)? {
            None => break,
            Some(piece) => {
                total += piece.bytes.as_slice().len() as u64;
                let what = What::Gave(piece);
                post(rt, to, pass, Item { from, what });
            }
        }
    }
    Ok(())
}

impl<R: Wait + Drop, I: Incoming + Drop, P: Drop> Job for ReaderJob<R, I, P> {
    type Answer = ReaderAnswer<I, P>;

    ghost keeps = { HasRead I.told };

    fn work(self) -> ReaderAnswer<I, P> {
        let ReaderJob {
            rt,
            alloc,
            mut half,
            to,
            mut pass,
            from,
        } = self;
        let what = match read_on(&rt, alloc, &mut half, &to, &mut pass, from) {
            Ok(()) => What::Ended,
            Err(NoMemory) => What::Wanted,
        };
        post(&rt, &to, &mut pass, Item { from, what });
        ReaderAnswer { half, pass }
    }
}
