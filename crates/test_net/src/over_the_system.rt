//! Bytes over loopback, the ends of links, and the system's clock and random bytes.
use base_io::Failed;
use net_tcp::{
    LetGo, OpenCause, SystemClock, SystemEntropy, SystemWhy, TcpDialer, TcpDoor, TcpHalvesDoor,
};
use net_traits::{
    Clock, Dialer, Door, Entropy, Halves, Incoming, Link, OpenFault, Outgoing, Pair, send_whole,
};
use std::alloc::{AllocGlobal, Global};
use std::net::{IpAddr, Ipv4Addr, Net, SocketAddr};
use std::random::RandomSource;
use std::test::Fail;
use std::thread;
use std::time::{self, Duration, SystemTime};

const PORT: u16 = 48_217;

// The port of a door of halves.
const HALVES_PORT: u16 = 48_219;

// Bytes go from one end to the other, and then the end.
fn goes_over<A: Link, B: Link>(from: &mut A, to: &mut B) -> bool {
    let mut buf = [0u8; 8];
    let sent = send_whole(from, b"hello");
    from.close();
    let read = to.read(&mut buf);
    let came = buf.starts_with(b"hello");
    sent.is_ok() && read == Ok(5) && came && to.read(&mut buf) == Ok(0)
}

// Bytes go from a dialer to a door of this machine.
fn goes_over_loopback<R: Net>(net: &R, alloc: Global) -> Result<bool, OpenFault> {
    let mut door = TcpDoor::new(net, alloc);
    let mut dialer = TcpDialer::new(net, alloc);
    door.listen(PORT)?;
    let mut ours = dialer.dial(PORT)?;
    let went = match door.accept() {
        Ok(mut theirs) => {
            let went = goes_over(&mut ours, &mut theirs);
            door.give_back(theirs);
            went
        }
        Err(_) => false,
    };
    dialer.give_back(ours);
    Ok(went)
}

// Nothing listens at the port, and the dialer tells it.
fn is_refused<R: Net>(net: &R, alloc: Global) -> bool {
    let mut dialer = TcpDialer::new(net, alloc);
    let port = PORT + 1;
    let why = SystemWhy::Refused;
    match dialer.dial(port) {
        Ok(link) => {
            dialer.give_back(link);
            false
        }
        Err(fault) => {
            fault == OpenFault::Failed && dialer.cause() == Some(OpenCause::Dial { port, why })
        }
    }
}

#[test]
fn bytes_go_over_loopback(rt: HostRuntime) -> Result<(), Fail> {
    assert!(rt; goes_over_loopback(&rt, rt.alloc()) == Ok(true) && is_refused(&rt, rt.alloc()));
    Ok(())
}

// Whether a half that is closed has ended its link both ways, while the other end is open: the other half reads the end, and
// so does the other end, behind what was written.
fn ends_both_ways<I: Incoming + Drop, O: Outgoing + Drop, L: Link>(
    pair: Pair<I, O>,
    other: &mut L,
) -> bool {
    let Pair {
        mut incoming,
        mut outgoing,
        ..
    } = pair;
    let mut buf = [0u8; 8];
    let sent = outgoing.write(b"bye");
    outgoing.close();
    let read = other.read(&mut buf);
    let came = buf.starts_with(b"bye");
    let ended = other.read(&mut buf) == Ok(0) && incoming.read(&mut buf) == Ok(0);
    sent == Ok(3) && read == Ok(3) && came && ended
}

// Whether a connection to a port at another address of this machine is refused.
fn is_loopback_alone<R: Net>(net: &R, port: u16) -> bool {
    let other = IpAddr::V4(Ipv4Addr::new(127, 0, 0, 2));
    net.connect(SocketAddr::new(other, port)).is_err()
}

// Whether another door can't listen at the port, and tells it.
fn is_taken<R: Net + Copy + Drop>(net: R, alloc: Global) -> bool
where
    R::Stream: LetGo,
{
    let port = HALVES_PORT;
    let why = SystemWhy::InUse;
    let mut door = TcpHalvesDoor::new(net, alloc);
    door.listen(port) == Err(OpenFault::Failed)
        && door.cause() == Some(OpenCause::Listen { port, why })
}

// Whether a door of halves listens at one address alone, once, and a link of it ends.
fn links_end<R: Net + Copy + Drop>(net: R, alloc: Global) -> Result<bool, OpenFault>
where
    R::Stream: LetGo,
{
    let mut door = TcpHalvesDoor::new(net, alloc);
    let mut dialer = TcpDialer::new(&net, alloc);
    door.listen(HALVES_PORT)?;
    let alone = is_loopback_alone(&net, HALVES_PORT) && is_taken(net, alloc);
    let mut other = dialer.dial(HALVES_PORT)?;
    let ended = match door.accept_halves() {
        Ok(pair) => ends_both_ways(pair, &mut other),
        Err(_) => false,
    };
    dialer.give_back(other);
    Ok(alone && ended)
}

#[test]
fn a_half_that_is_closed_ends_its_link(rt: HostRuntime) -> Result<(), Fail> {
    assert!(rt; links_end(rt, rt.alloc()) == Ok(true));
    Ok(())
}

// What is drawn the first and the second time.
fn draws<R: RandomSource>(source: &R) -> Result<[[u8; 24]; 2], Failed> {
    let mut entropy = SystemEntropy::new(source);
    let mut drawn = [[0u8; 24]; 2];
    entropy.fill(&mut drawn[0])?;
    entropy.fill(&mut drawn[1])?;
    Ok(drawn)
}

// Whether no two of four draws are the same, two each of two sources.
fn differ<R: RandomSource>(source: &R) -> Result<bool, Failed> {
    let [a, b] = draws(source)?;
    let [c, d] = draws(source)?;
    Ok(a != b && a != c && a != d && b != c && b != d && c != d)
}

#[test]
fn no_two_draws_are_the_same(rt: HostRuntime) -> Result<(), Fail> {
    assert!(rt; differ(&rt) == Ok(true));
    Ok(())
}

const READINGS: u32 = 1_000;

// Whether the clock never falls, over so many readings.
fn never_falls<C: Clock>(clock: &mut C) -> bool {
    let mut last = 0;
    let mut rises = true;
    for _ in 0..READINGS {
        let now = clock.now_ms();
        rises = rises && last <= now;
        last = now;
    }
    rises
}

// The milliseconds since 1970, or 0 where the system tells no time.
fn since_1970<R: time::Clock>(clock: &R) -> u128 {
    let Ok(now) = SystemTime::now(clock) else {
        return 0;
    };
    match now.duration_since(SystemTime::UNIX_EPOCH) {
        Ok(since) => since.as_millis(),
        Err(_) => 0,
    }
}

// Whether a reading lies between the moment before it and the one behind it.
fn is_near<R: time::Clock>(rt: &R) -> bool {
    let before = since_1970(rt);
    let now = u128::from(SystemClock::new(rt).now_ms());
    0 < before && before <= now && now <= since_1970(rt)
}

const WAIT: u64 = 50;

// Whether a reading behind a wait is as many milliseconds later, or more.
fn rises<R: time::Clock>(rt: &R) -> bool {
    let mut clock = SystemClock::new(rt);
    let before = clock.now_ms();
    thread::sleep(rt, Duration::from_millis(WAIT));
    clock.now_ms().saturating_sub(before) >= WAIT
}

#[test]
fn the_clock_goes_with_the_system(rt: HostRuntime) -> Result<(), Fail> {
    assert!(rt; never_falls(&mut SystemClock::new(&rt)) && is_near(&rt) && rises(&rt));
    Ok(())
}
