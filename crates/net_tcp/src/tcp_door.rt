//! Doors over TCP.
ghost use Rattle.std.specs.Prelude.{◌≡◌, [], IfOk};
ghost use Rattle.net_traits.specs.Links.{IsUnused};
ghost use Rattle.net_tcp.specs.Returns.{returned, told_link};

use crate::cause::{Refusal, SystemWhy, read_error};
use crate::returns::{Returns, put};
use crate::tcp_link::TcpLink;
use net_traits::{Door, OpenFault};
use std::alloc::Global;
use std::io::ErrorKind;
use std::net::{IpAddr, Ipv4Addr, Net, OpenListener, SocketAddr};

/// A door at a port of the loopback address of this machine (RFC 1122, section 3.2.1.3), over the system's sockets. Each
/// error of the system is a fault, but for want of memory, and so is an `accept` where nothing listens. A call that was
/// interrupted is tried again.
#[derive(Drop)]
pub struct TcpDoor<'a, R: Net> {
    net: &'a R,
    alloc: Global,
    listener: Option<R::Listener>,
    given: Returns,
    faults: u64,
    handed: u64,
}

// The loopback address with a port.
pub(crate) fn loopback(port: u16) -> SocketAddr {
    SocketAddr::new(IpAddr::V4(Ipv4Addr::LOCALHOST), port)
}

impl<'a, R: Net> TcpDoor<'a, R> {
    /// A door that isn't open yet.
    pub fn new(net: &'a R, alloc: Global) -> TcpDoor<'a, R>
        ensures given { ⟦<TcpDoor<'a, R> as Door>⟧.given result ≡ [] }
        ensures faults { ⟦<TcpDoor<'a, R> as Door>⟧.faults result ≡ 0 }
        ensures handed { ⟦<TcpDoor<'a, R> as Door>⟧.handed result ≡ 0 }
    {
        TcpDoor {
            net,
            alloc,
            listener: None,
            given: Returns::new(),
            faults: 0,
            handed: 0,
        }
    }

    // The next connection.
    fn next(&self) -> Result<R::Stream, Refusal> {
        let Some(listener) = &self.listener else {
            return Err(Refusal::System(SystemWhy::Other));
        };
        // A call that is interrupted each time ends all the same.
        for _ in 0..u64::MAX {
            match listener.accept() {
                Ok((stream, _)) => return Ok(stream),
                Err(e) if e.kind() == ErrorKind::Interrupted => {}
                Err(e) => return Err(read_error(&e)),
            }
        }
        Err(Refusal::System(SystemWhy::Other))
    }

    // A link over the next connection.
    fn next_link(&self) -> Result<TcpLink<R::Stream>, Refusal>
        ensures { IfOk result (λ link. IsUnused (told_link link.counts)) }
    {
        let stream = self.next()?;
        match TcpLink::new(self.alloc, stream) {
            Ok(link) => Ok(link),
            Err(_) => Err(Refusal::NoMemory),
        }
    }
}

impl<'a, R: Net> Door for TcpDoor<'a, R> {
    type Link = TcpLink<R::Stream>;

    ghost faults = { λ s. s.faults };

    ghost handed = { λ s. s.handed };

    ghost given = { λ s. returned s.given };

    fn listen(&mut self, port: u16) -> Result<(), OpenFault> {
        match self.net.bind(loopback(port)) {
            Ok(listener) => {
                self.listener = Some(listener);
                Ok(())
            }
            Err(e) => match read_error(&e) {
                Refusal::System(_) => {
                    self.faults = self.faults.saturating_add(1);
                    Err(OpenFault::Failed)
                }
                Refusal::NoMemory => Err(OpenFault::NoMemory),
            },
        }
    }

    fn accept(&mut self) -> Result<TcpLink<R::Stream>, OpenFault> {
        match self.next_link() {
            Ok(link) => {
                self.handed = self.handed.saturating_add(1);
                Ok(link)
            }
            Err(Refusal::System(_)) => {
                self.faults = self.faults.saturating_add(1);
                Err(OpenFault::Failed)
            }
            Err(Refusal::NoMemory) => Err(OpenFault::NoMemory),
        }
    }

    fn give_back(&mut self, link: TcpLink<R::Stream>) {
        put(&mut self.given, link.room, link.counts);
    }
}
