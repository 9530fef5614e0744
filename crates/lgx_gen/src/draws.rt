// Numbers drawn from a state.
ghost use Rattle.std.specs.Prelude.{◌≡◌, ◌<◌};
ghost use Rattle.lgx_gen.specs.Draws.{draw, state_after};

use std::marker::Model;

const MULTIPLIER: u32 = 1664525;

const INCREMENT: u32 = 1013904223;

/// Draws, seen as their state.
#[derive(Drop)]
pub(crate) struct Draws {
    state: u32,
}

impl Model for Draws {
    ghost use Rattle.std.specs.Prelude.{ℕ};

    ghost Value = { ℕ };

    ghost view = { λ draws. draws.state };
}

impl Draws {
    /// The draws of a number, none made yet.
    pub(crate) fn of(n: u32) -> Draws
        ensures { result ≡ n }
    {
        Draws { state: n }
    }

    /// The next number below a bound.
    pub(crate) fn below(&mut self, bound: u32) -> u32
        requires { 0 < bound }
        ensures drawn { result ≡ draw self.old 0 bound }
        ensures below { result < bound }
        ensures state { self.new ≡ state_after 1 self.old }
    {
        self.state = self.state.wrapping_mul(MULTIPLIER).wrapping_add(INCREMENT);
        (self.state >> 16) % bound
    }
}
