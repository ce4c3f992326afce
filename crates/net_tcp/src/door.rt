//! Doors over TCP that hand out links in halves.
ghost use Rattle.std.specs.Prelude.{◌≡◌, [], ◌∷◌, ◌++◌, false, IfOk, is_none, is_ok};
ghost use Rattle.net_traits.specs.Links.{counted_if};
ghost use Rattle.net_traits.specs.Opens.{IsOpenCounted};
ghost use Rattle.net_tcp.specs.ToldLinks.{link_of_halves, told_links};

use crate::cause::{OpenCause, Refusal, SystemWhy, read_error};
use crate::incoming::{Counts, TcpIncoming};
use crate::letting_go::LetGo;
use crate::outgoing::TcpOutgoing;
use base_log::Log;
use net_traits::{Door, GivenBack, Halves, JoinedLink, OpenFault, Pair, put_back};
use std::alloc::Global;
use std::io::ErrorKind;
use std::net::{IpAddr, Ipv4Addr, Net, OpenListener, OpenStream, SocketAddr};
use std::time::Duration;

/// How long a write waits for a peer that doesn't read, in seconds. Then it fails, and the others are served again.
const LONGEST_WRITE: u64 = 10;

/// A door at a port of the loopback address of this machine (RFC 1122, section 3.2.1.3), over the system's sockets. Each
/// error of the system is a fault, but for want of memory, and so is an accept where nothing listens. A call that was
/// interrupted is tried again. What the system said of the fault that came last is kept.
#[derive(Drop)]
pub struct TcpHalvesDoor<R: Net> {
    net: R,
    alloc: Global,
    listener: Option<R::Listener>,
    given: GivenBack<Counts>,
    faults: u64,
    handed: u64,
    cause: Option<OpenCause>,
}

impl<R: Net + Drop> TcpHalvesDoor<R>
where
    R::Stream: LetGo,
{
    /// A door that isn't open yet.
    pub fn new(net: R, alloc: Global) -> TcpHalvesDoor<R>
        ensures given { ⟦<TcpHalvesDoor<R> as Door>⟧.given result ≡ [] }
        ensures faults { ⟦<TcpHalvesDoor<R> as Door>⟧.faults result ≡ 0 }
        ensures handed { ⟦<TcpHalvesDoor<R> as Door>⟧.handed result ≡ 0 }
    {
        TcpHalvesDoor {
            net,
            alloc,
            listener: None,
            given: GivenBack::new(),
            faults: 0,
            handed: 0,
            cause: None,
        }
    }

    /// What was said of the fault that came last.
    pub fn cause(&self) -> Option<OpenCause>
        ensures { result ≡ self.now.cause }
    {
        self.cause
    }

    // The next connection.
    fn next(&self) -> Result<R::Stream, Refusal> {
        let Some(listener) = &self.listener else {
            return Err(Refusal::System(SystemWhy::Other));
        };
        // A call that is interrupted each time ends all the same.
        for _ in 0..u64::MAX {
            match listener.accept() {
                Ok((stream, _)) => return Ok(stream),
                Err(e) if e.kind() == ErrorKind::Interrupted => {}
                Err(e) => return Err(read_error(&e)),
            }
        }
        Err(Refusal::System(SystemWhy::Other))
    }

    // The halves of the next connection, with this number.
    fn next_halves(
        &self,
        number: u64,
    ) -> Result<Pair<TcpIncoming<R::Stream>, TcpOutgoing<R::Stream>>, Refusal>
        ensures number { IfOk result (λ pair. pair.incoming.number ≡ number) }
        ensures open { IfOk result (λ pair. is_none pair.outgoing.stream ≡ false) }
    {
        let stream = self.next()?;
        let same = match stream.try_clone() {
            Ok(same) => same,
            Err(e) => return Err(read_error(&e)),
        };
        let Ok(room) = Box::new(self.alloc, GivenBack::new()) else {
            return Err(Refusal::NoMemory);
        };
        // A message goes out at once, also where it is short.
        let _ = stream.set_nodelay(true);
        let _ = stream.set_write_timeout(Some(Duration::from_secs(LONGEST_WRITE)));
        let incoming = TcpIncoming {
            stream: Some(stream),
            number,
            faults: 0,
            ends: 0,
            log: Log::new(),
            room,
        };
        let outgoing = TcpOutgoing {
            stream: Some(same),
            number,
            faults: 0,
            log: Log::new(),
        };
        Ok(Pair::new(incoming, outgoing))
    }

    // Hands out the next connection.
    fn hand_out(
        &mut self,
    ) -> Result<Pair<TcpIncoming<R::Stream>, TcpOutgoing<R::Stream>>, OpenFault>
        ensures number { IfOk result (λ pair. pair.incoming.number ≡ self.new.handed) }
        ensures open { IfOk result (λ pair. is_none pair.outgoing.stream ≡ false) }
        ensures cause { IsOpenCounted self.old.faults self.new.faults result }
        ensures handed { self.new.handed ≡ counted_if (is_ok result) self.old.handed }
        ensures given { self.new.given ≡ self.old.given }
    {
        let number = self.handed.saturating_add(1);
        match self.next_halves(number) {
            Ok(pair) => {
                self.handed = number;
                Ok(pair)
            }
            Err(Refusal::System(why)) => {
                self.faults = self.faults.saturating_add(1);
                self.cause = Some(OpenCause::Accept { why });
                Err(OpenFault::Failed)
            }
            Err(Refusal::NoMemory) => Err(OpenFault::NoMemory),
        }
    }
}

// Takes the halves of a link back.
fn keep<S: Drop>(given: &mut GivenBack<Counts>, incoming: TcpIncoming<S>, outgoing: TcpOutgoing<S>)
    ensures { told_links given.new ≡ told_links given.old ++ link_of_halves incoming outgoing ∷ [] }
{
    let TcpIncoming {
        faults,
        ends,
        log,
        room,
        ..
    } = incoming;
    let counts = Counts {
        read_faults: faults,
        ends,
        write_faults: outgoing.faults,
        read: log,
        written: outgoing.log,
    };
    put_back(given, room, counts);
}

impl<R: Net + Drop> Door for TcpHalvesDoor<R>
where
    R::Stream: LetGo,
{
    type Link = JoinedLink<TcpIncoming<R::Stream>, TcpOutgoing<R::Stream>>;

    ghost faults = { λ s. s.faults };

    ghost handed = { λ s. s.handed };

    ghost given = { λ s. told_links s.given };

    fn listen(&mut self, port: u16) -> Result<(), OpenFault> {
        let address = SocketAddr::new(IpAddr::V4(Ipv4Addr::LOCALHOST), port);
        match self.net.bind(address) {
            Ok(listener) => {
                self.listener = Some(listener);
                Ok(())
            }
            Err(e) => match read_error(&e) {
                Refusal::System(why) => {
                    self.faults = self.faults.saturating_add(1);
                    self.cause = Some(OpenCause::Listen { port, why });
                    Err(OpenFault::Failed)
                }
                Refusal::NoMemory => Err(OpenFault::NoMemory),
            },
        }
    }

    fn accept(
        &mut self,
    ) -> Result<JoinedLink<TcpIncoming<R::Stream>, TcpOutgoing<R::Stream>>, OpenFault> {
        match self.hand_out() {
            Ok(pair) => Ok(JoinedLink::new(pair)),
            Err(fault) => Err(fault),
        }
    }

    fn give_back(&mut self, link: JoinedLink<TcpIncoming<R::Stream>, TcpOutgoing<R::Stream>>) {
        let (incoming, outgoing) = link.apart();
        keep(&mut self.given, incoming, outgoing);
    }
}

impl<R: Net + Drop> Halves for TcpHalvesDoor<R>
where
    R::Stream: LetGo,
{
    type Incoming = TcpIncoming<R::Stream>;

    type Outgoing = TcpOutgoing<R::Stream>;

    fn accept_halves(
        &mut self,
    ) -> Result<Pair<TcpIncoming<R::Stream>, TcpOutgoing<R::Stream>>, OpenFault> {
        self.hand_out()
    }

    fn give_back_halves(
        &mut self,
        incoming: TcpIncoming<R::Stream>,
        outgoing: TcpOutgoing<R::Stream>,
    ) {
        keep(&mut self.given, incoming, outgoing);
    }
}
