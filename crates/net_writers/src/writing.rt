//! How a writer works.
ghost use Rattle.std.specs.Prelude.{◌≡◌, ◌++◌, ◌∷◌, [], true, false, List};
ghost use Rattle.crossbeam_channel.specs.Claims.{IsSeatAt, view};
ghost use Rattle.crossbeam_channel.specs.Ends.{receives_on};
ghost use Rattle.net_queues.specs.Rule.{side};
ghost use Rattle.net_writers.specs.Takings.{are_puts, bytes_of, has_taken};
ghost use Rattle.net_writers.specs.Sent.{HasSent};
ghost use Rattle.net_writers.specs.Writers.{HasWrittenAll};
ghost use Rattle.net_writers.specs.declared.parcel.Parcel.{Parcel as ParcelView};
ghost use Rattle.net_writers.specs.declared.parcel.Parcel.TheVariants.{End};

use crate::parcel::Parcel;
use crate::sender::Sender;
use crate::writer::{WriterAnswer, WriterJob};
use net_owner::Job;
use net_queues::{Consumer, QueuePass, take};
use net_traits::Outgoing;
use std::sync::Wait;

// Takes parcels and writes their bytes, in order, up to the end. What comes after a write that failed is taken and not written.
fn write_on<R: Wait, O: Outgoing>(
    rt: &R,
    at: &Consumer<Parcel>,
    pass: &mut QueuePass<Parcel>,
    sender: &mut Sender<O>,
)
    requires channel { IsSeatAt (receives_on at.now) pass.old }
    requires unused { view pass.old ≡ side false true [] [] }
    ensures channel { IsSeatAt (receives_on at.now) pass.new }
    ensures took { (body : List ParcelView) × (view pass.new ≡ has_taken (body ++ End ∷ [])) × (are_puts body ≡ true)
        × (HasSent [] sender.old.broken (O.told sender.old.half) → HasSent (bytes_of body) sender.new.broken (O.told sender.new.half)) }
    ensures number { (O.told sender.new.half).number ≡ (O.told sender.old.half).number }
{
    for _ in rt.forever() {
        match take(rt, at, pass) {
            Parcel::Put(bytes) => sender.put(bytes.as_slice()),
            Parcel::End => return,
        }
    }
    unreachable!()
}

impl<R: Wait + Drop, O: Outgoing + Drop> Job for WriterJob<R, O> {
    type Answer = WriterAnswer<O>;

    ghost keeps = { HasWrittenAll O.told O.closed };

    fn work(self) -> WriterAnswer<O> {
        let WriterJob {
            rt,
            half,
            at,
            mut pass,
        } = self;
        let mut sender = Sender::new(half);
        write_on(&rt, &at, &mut pass, &mut sender);
        sender.close();
        let Sender { half, .. } = sender;
        WriterAnswer { half, pass }
    }
}
