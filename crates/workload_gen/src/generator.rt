//! Seeded numbers.
ghost use Rattle.std.specs.Prelude.{◌≡◌, ◌*◌, ◌/◌, ◌^◌, ◌<◌};
ghost use Rattle.workload_gen.specs.Made.{stepped, upper_half};

use std::marker::Model;

/// A linear congruential generator of 64 bits, of which each draw gives the upper half (Knuth 1981).
///
/// It is the one of made scripts, so that a seed means the same everywhere: from seed 0 the first draw is 335,903,614.
#[derive(Drop)]
pub struct Generator {
    state: u64,
}

impl Model for Generator {
    ghost use Rattle.std.specs.Prelude.{ℕ};

    ghost Value = { ℕ };

    ghost view = { λ generator. generator.state };
}

const MULTIPLIER: u64 = 6_364_136_223_846_793_005;

const INCREMENT: u64 = 1_442_695_040_888_963_407;

impl Generator {
    pub fn new(seed: u64) -> Generator
        ensures { result ≡ seed }
    {
        Generator { state: seed }
    }

    /// The next number, any of 32 bits.
    pub fn draw(&mut self) -> u32
        ensures number { result ≡ upper_half self.new }
        ensures state { self.new ≡ stepped self.old }
    {
        self.state = self.state.wrapping_mul(MULTIPLIER).wrapping_add(INCREMENT);
        (self.state >> 32) as u32
    }

    /// The next number scaled to those below a limit.
    pub fn below(&mut self, limit: u32) -> u32
        requires { 0 < limit }
        ensures number { result ≡ upper_half self.new * limit / 2 ^ 32 }
        ensures state { self.new ≡ stepped self.old }
        ensures within { result < limit }
    {
        (self.draw() as u64 * limit as u64 / (1 << 32)) as u32
    }
}
