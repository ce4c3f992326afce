//! Dialers over TCP.
ghost use Rattle.std.specs.Prelude.{◌≡◌, [], IfOk};
ghost use Rattle.net_traits.specs.Links.{IsUnused};
ghost use Rattle.net_tcp.specs.Returns.{returned, told_link};

use crate::cause::{OpenCause, Refusal, read_error};
use crate::returns::{Returns, put};
use crate::tcp_door::loopback;
use crate::tcp_link::TcpLink;
use net_traits::{Dialer, OpenFault};
use std::alloc::Global;
use std::net::Net;

/// A dialer to the loopback address of this machine (RFC 1122, section 3.2.1.3), over the system's sockets. Each error of
/// the system is a fault, but for want of memory. What the system said of the `dial` that failed last is kept.
#[derive(Drop)]
pub struct TcpDialer<'a, R> {
    net: &'a R,
    alloc: Global,
    given: Returns,
    faults: u64,
    ends: u64,
    handed: u64,
    cause: Option<OpenCause>,
}

impl<'a, R: Net> TcpDialer<'a, R> {
    /// A dialer that made no connection yet.
    pub fn new(net: &'a R, alloc: Global) -> TcpDialer<'a, R>
        ensures given { ⟦<TcpDialer<'a, R> as Dialer>⟧.given result ≡ [] }
        ensures faults { ⟦<TcpDialer<'a, R> as Dialer>⟧.faults result ≡ 0 }
        ensures ends { ⟦<TcpDialer<'a, R> as Dialer>⟧.ends result ≡ 0 }
        ensures handed { ⟦<TcpDialer<'a, R> as Dialer>⟧.handed result ≡ 0 }
    {
        TcpDialer {
            net,
            alloc,
            given: Returns::new(),
            faults: 0,
            ends: 0,
            handed: 0,
            cause: None,
        }
    }

    /// What was said of the `dial` that failed last.
    pub fn cause(&self) -> Option<OpenCause>
        ensures { result ≡ self.now.cause }
    {
        self.cause
    }

    // A link over a new connection.
    fn new_link(&self, port: u16) -> Result<TcpLink<R::Stream>, Refusal>
        ensures { IfOk result (λ link. IsUnused (told_link link.counts)) }
    {
        match self.net.connect(loopback(port)) {
            Ok(stream) => match TcpLink::new(self.alloc, stream) {
                Ok(link) => Ok(link),
                Err(_) => Err(Refusal::NoMemory),
            },
            Err(e) => Err(read_error(&e)),
        }
    }
}

impl<'a, R: Net> Dialer for TcpDialer<'a, R> {
    type Link = TcpLink<R::Stream>;

    ghost faults = { λ s. s.faults };

    ghost ends = { λ s. s.ends };

    ghost handed = { λ s. s.handed };

    ghost given = { λ s. returned s.given };

    fn dial(&mut self, port: u16) -> Result<TcpLink<R::Stream>, OpenFault> {
        match self.new_link(port) {
            Ok(link) => {
                self.handed = self.handed.saturating_add(1);
                Ok(link)
            }
            Err(Refusal::System(why)) => {
                self.faults = self.faults.saturating_add(1);
                self.cause = Some(OpenCause::Dial { port, why });
                Err(OpenFault::Failed)
            }
            Err(Refusal::NoMemory) => Err(OpenFault::NoMemory),
        }
    }

    fn give_back(&mut self, link: TcpLink<R::Stream>) {
        if link.counts.has_failed() {
            self.faults = self.faults.saturating_add(1);
        }
        if link.counts.has_ended() {
            self.ends = self.ends.saturating_add(1);
        }
        put(&mut self.given, link.room, link.counts);
    }
}
