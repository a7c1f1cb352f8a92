//! Numbers drawn one after another from a first number.
ghost use Rattle.std.specs.Prelude.{◌≡◌, ◌<◌, ◌%◌, ℕ};
ghost use Rattle.case_maker.specs.Draws.{draw_at, next_state};

use std::marker::Model;

/// The numbers that take a state to the next one.
const MULTIPLIER: u64 = 6_364_136_223_846_793_005;

const INCREMENT: u64 = 1_442_695_040_888_963_407;

/// How many low bits of a state are not drawn.
const LOW_BITS: u32 = 33;

/// A linear congruential generator: its state.
#[derive(Drop)]
pub(crate) struct Generator {
    state: u64,
}

impl Model for Generator {
    ghost Value = { ℕ };

    ghost view = { λ generator. generator.state };
}

impl Generator {
    /// The generator whose first state is a number.
    pub(crate) fn new(number: u64) -> Generator
        ensures { result ≡ number }
    {
        Generator { state: number }
    }

    /// Draws a number below a bound.
    pub(crate) fn draw_below(&mut self, bound: u64) -> u64
        requires { 0 < bound }
        ensures state { self.new ≡ next_state self.old }
        ensures drawn { result ≡ draw_at 0 self.old % bound }
        ensures below { result < bound }
    {
        self.state = self.state.wrapping_mul(MULTIPLIER).wrapping_add(INCREMENT);
        (self.state >> LOW_BITS) % bound
    }
}
