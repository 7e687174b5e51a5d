//! Numbers drawn one after the other from a seed.

ghost use Rattle.std.specs.Prelude.{◌≡◌, ◌<◌, ◌%◌, ◌^◌};
ghost use Rattle.world_mem.specs.Draws.{next, drawn};

use std::marker::Model;

/// A generator of numbers that look like chance and that a seed decides: the same seed, the same
/// numbers.
#[derive(Drop)]
pub struct Draws {
    number: u32,
}

impl Model for Draws {
    ghost use Rattle.std.specs.Prelude.{ℕ};

    ghost Value = { ℕ };

    ghost view = { λ draws. draws.number };
}

impl Draws {
    /// Draws begun at a seed, of which the last 32 bits count.
    pub fn new(seed: u64) -> Draws
        ensures { result ≡ seed % 2 ^ 32 }
    {
        Draws {
            number: (seed % 4_294_967_296) as u32,
        }
    }

    /// The next number, which is below the bound.
    #[tactic(auto, unfolding(crate::specs::Draws::next, crate::specs::Draws::drawn))]
    pub fn below(&mut self, bound: u32) -> u32
        requires { 0 < bound }
        ensures next { self.new ≡ next self.old }
        ensures value { result ≡ drawn bound self.new }
        ensures below { result < bound }
    {
        let number = 69_069 * u64::from(self.number) + 1;
        self.number = (number % 4_294_967_296) as u32;
        (self.number / 65_536) % bound
    }
}
