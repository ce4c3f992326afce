//! Numbers drawn one after the other, each from the state that the one before it left.
ghost use Rattle.std.specs.Prelude.{◌≡◌, ◌<◌};
ghost use Rattle.cmd_generate.specs.Draws.{draw, next_state};

use std::marker::Model;

/// What a state is multiplied by, modulo 2^64.
pub const FACTOR: u64 = 6_364_136_223_846_793_005;

/// What is added then, modulo 2^64.
pub const STEP: u64 = 1_442_695_040_888_963_407;

/// A state from which numbers are drawn.
#[derive(Drop)]
pub struct Draws {
    state: u64,
}

impl Model for Draws {
    ghost use Rattle.std.specs.Prelude.{ℕ};

    ghost Value = { ℕ };

    ghost view = { λ d. d.state };
}

fn next_state(state: u64) -> u64
    ensures { result ≡ next_state state }
{
    state.wrapping_mul(FACTOR).wrapping_add(STEP)
}

impl Draws {
    /// Draws from this state on.
    pub fn from_state(state: u64) -> Draws
        ensures { result ≡ state }
    {
        Draws { state }
    }

    /// A number below a bound.
    pub fn draw(&mut self, bound: u32) -> u32
        requires { 0 < bound }
        ensures value { result ≡ (draw bound self.old).value }
        ensures state { self.new ≡ (draw bound self.old).state }
    {
        self.state = next_state(self.state);
        let bits = self.state >> 33;
        (bits % u64::from(bound)) as u32
    }
}
