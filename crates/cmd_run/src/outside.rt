//! All of the outside.
use crate::cause::Cause;
use net_owner::Spawner;
use net_traits::{Clock, Dialer, Entropy, Halves};

/// What a program that serves or dials has of the outside: a door, until it is handed on, a dialer, a clock, a source of
/// random bytes, and what starts threads; and the cause that the last call told, where it went out in vain.
pub struct Outside<D: Halves, L: Dialer, C: Clock, E: Entropy, P: Spawner> {
    pub door: Option<D>,
    pub dialer: L,
    pub clock: C,
    pub entropy: E,
    pub spawner: P,
    pub cause: Option<Cause>,
}

/// Drops an outside, which isn't dropped as a whole: its parts are.
pub fn drop_outside<
    D: Halves + Drop,
    L: Dialer + Drop,
    C: Clock + Drop,
    E: Entropy + Drop,
    P: Spawner + Drop,
>(outside: Outside<D, L, C, E, P>) {
    let Outside {
        door,
        dialer,
        clock,
        entropy,
        spawner,
        cause: _,
    } = outside;
    drop((door, dialer, clock, entropy, spawner));
}
